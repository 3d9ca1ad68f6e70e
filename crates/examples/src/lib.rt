// The worked examples of docs/ROUTES.md and docs/ARRANGERS.md, settled against the definitions.
#![tactic(auto)]

ghost use Rattle.examples.specs.Worked.{Worked};

// All worked examples in one theorem. The function does nothing; its contract carries the theorem.
pub fn worked_examples()
    ensures { Worked }
{}
