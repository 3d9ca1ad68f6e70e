// What the words of a command line ask for.
ghost use Rattle.std.specs.Prelude.{◌≡◌, Some, map, string_bytes, ok_or};
ghost use Rattle.replies.specs.declared.arguments.Misuse.TheVariants.{Kind};
ghost use Rattle.replies.specs.Arguments.{kind_named, number_in, query_of, query_in, misuse_text};

use ports::sizes::Sizes;
use ports::transfer::Transfer;
use std::fmt;
use std::str::FromStr;

// A cabinet kind, by its name.
#[derive(Clone, Copy)]
pub(crate) enum KindName {
    Folded,
    Straight,
}

// A transfer to trace through a cabinet.
#[derive(Clone, Copy)]
pub(crate) struct Query {
    pub kind: KindName,
    pub sizes: Sizes,
    pub transfer: Transfer,
}

// What is wrong with the words; the first wrong one is told.
#[derive(Clone, Copy)]
pub enum Misuse {
    // there are not five words
    Count,
    // the first word names no kind
    Kind,
    // a word is not a decimal number, or too large for what it stands for
    Lines,
    Nodes,
    Sender,
    Receiver,
}

impl fmt::Display for Misuse {
    ghost output = { λ e. Some (misuse_text e) };

    fn fmt<W: fmt::Write>(&self, f: &mut fmt::Formatter<W>) -> fmt::Result {
        match self {
            Misuse::Count => write!(f, "five arguments are wanted"),
            Misuse::Kind => write!(f, "KIND must be folded or straight"),
            Misuse::Lines => write!(f, "M must be a number from 0 to 255"),
            Misuse::Nodes => write!(f, "N must be a number from 0 to 255"),
            Misuse::Sender => write!(f, "SENDER must be a number from 0 to 65535"),
            Misuse::Receiver => write!(f, "RECEIVER must be a number from 0 to 65535"),
        }
    }
}

impl FromStr for KindName {
    type Err = Misuse;

    ghost from_str_gives = { λ word r. r ≡ ok_or (kind_named word) Kind };

    fn from_str(word: &str) -> Result<KindName, Misuse> {
        match word {
            "folded" => Ok(KindName::Folded),
            "straight" => Ok(KindName::Straight),
            _ => Err(Misuse::Kind),
        }
    }
}

// A number of 16 bits in decimal digits and nothing else; the library also reads one with a plus sign before it.
#[tactic(auto, using(crate::proofs::Numbers::number_read))]
fn read_u16(word: &str) -> Option<u16>
    ensures { result ≡ number_in 65535 word.now }
{
    if word.starts_with('+') {
        return None;
    }
    word.parse().ok()
}

// The same of 8 bits.
fn read_u8(word: &str) -> Option<u8>
    ensures { result ≡ number_in 255 word.now }
{
    u8::try_from(read_u16(word)?).ok()
}

// What five words ask for.
fn read_five(kind: &str, m: &str, n: &str, sender: &str, receiver: &str) -> Result<Query, Misuse>
    ensures { result ≡ query_of kind.now m.now n.now sender.now receiver.now }
{
    let kind = kind.parse()?;
    let m = read_u8(m).ok_or(Misuse::Lines)?;
    let n = read_u8(n).ok_or(Misuse::Nodes)?;
    let sender = read_u16(sender).ok_or(Misuse::Sender)?;
    let receiver = read_u16(receiver).ok_or(Misuse::Receiver)?;
    Ok(Query {
        kind,
        sizes: Sizes { m, n },
        transfer: Transfer { sender, receiver },
    })
}

// What the words ask for.
#[tactic(auto, using(crate::proofs::Words::too_few, crate::proofs::Words::too_many, crate::proofs::Words::asked_five))]
pub(crate) fn read_query(words: &[String]) -> Result<Query, Misuse>
    ensures { result ≡ query_in (map string_bytes words.now) }
{
    let [kind, m, n, sender, receiver] = words else {
        return Err(Misuse::Count);
    };
    read_five(kind, m, n, sender, receiver)
}
