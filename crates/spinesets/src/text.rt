// Which transfers go by which spine, as text.
ghost use Rattle.std.specs.Prelude.{◌≡◌, IfOk, string_bytes};
ghost use Rattle.spinesets.specs.Text.{members, set_line, sets_text};

use crate::assigned::Assigned;
use ports::transfer::Transfer;
use std::alloc::{AllocError, Global};

// The transfers that go by a spine, in order.
fn members(heap: Global, spine: u8, assigned: &[Assigned]) -> Result<String, AllocError>
    ensures { IfOk result (λ t. string_bytes t ≡ members spine assigned.now) }
{
    let mut text = String::new(heap);
    for one in assigned {
        if one.spine == spine {
            let Transfer { sender, receiver } = one.transfer;
            write!(text, " {sender}->{receiver}")?;
        }
    }
    Ok(text)
}

// The line of one spine: its number and its transfers.
pub fn set_line(heap: Global, spine: u8, assigned: &[Assigned]) -> Result<String, AllocError>
    ensures { IfOk result (λ t. string_bytes t ≡ set_line spine assigned.now) }
{
    let transfers = members(heap, spine, assigned)?;
    format!(in heap; "spine {spine}:{transfers}\n")
}

// The lines of the spines below a number, in order.
pub fn sets_text(heap: Global, spines: u8, assigned: &[Assigned]) -> Result<String, AllocError>
    ensures { IfOk result (λ t. string_bytes t ≡ sets_text spines assigned.now) }
{
    let mut text = String::new(heap);
    for spine in 0..spines {
        let line = set_line(heap, spine, assigned)?;
        text.push_str(&line)?;
    }
    Ok(text)
}
