// How many rounds some transfers need, whatever arranges them. The functions do nothing; their contracts carry the theorems.
ghost use Rattle.timetables.specs.Timetables.{RoundsSuffice, LeastRounds};

use cabinet::kind::Cabinet;

// R rounds hold transfers between nodes exactly where no node sends more than R of them and none receives more.
pub fn rounds_suffice<K: Cabinet>()
    ensures { RoundsSuffice K.meaning }
{}

// So the least number of rounds that holds them is the largest number of them that a node sends or receives.
pub fn least_rounds<K: Cabinet>()
    ensures { LeastRounds K.meaning }
{}
