// How many colours suffice, whatever the arranger.
ghost use Rattle.lines.specs.Theorem.{ColoursSuffice};

// Lines can be coloured with c colours exactly where no end stands in more than c of them. The function does nothing;
// its contract carries the theorem.
pub fn colours_suffice()
    ensures { ColoursSuffice }
{}
