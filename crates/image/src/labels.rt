// Labels of transfers.
ghost use Rattle.std.specs.Prelude.{◌≡◌};
ghost use Rattle.image.specs.Labels.{label_of, told_part};

// The two texts that labels are parts of: the job text and the site sheet.
#[derive(Clone, Copy)]
pub struct Texts<'t> {
    pub job: &'t [u8],
    pub site: &'t [u8],
}

// The label of a transfer's cell, a part of the text that its source names; none where it passes the end of that text, or the
// source names no text.
pub fn label<'t>(cell: &[u8; 16], texts: Texts<'t>) -> Option<&'t [u8]>
    ensures { told_part result ≡ label_of texts.entry.job.now texts.entry.site.now cell.now }
{
    let text = match cell[11] {
        0 => texts.job,
        1 => texts.site,
        _ => return None,
    };
    let place = usize::from(u16::from_le_bytes([cell[8], cell[9]]));
    text.get(place..place + usize::from(cell[10]))
}
