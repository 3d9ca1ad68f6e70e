// The law says something: it refutes histories, and it admits others. The functions do nothing; their contracts carry the
// theorems.
ghost use Rattle.audit.specs.Admitted.{Admitted};
ghost use Rattle.audit.specs.Refuted.{Refuted};

use cabinet::kind::Cabinet;
use lines::arranger::Arranger;

// Histories in which something is wrong are not lawful, or not due, for any kind and any round arranger.
pub fn law_refutes<K: Cabinet, A: Arranger>()
    ensures { Refuted K.meaning A.served }
{}

// Histories in which nothing is wrong are lawful and due, for any kind and any round arranger.
pub fn law_admits<K: Cabinet, A: Arranger>()
    ensures { Admitted K.meaning A.served }
{}
