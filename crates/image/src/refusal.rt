// Why a job image is refused. Each case holds the values that are told with its number; specs/Faults.antt has the numbers.
ghost use Rattle.std.specs.Prelude.{◌≡◌};
ghost use Rattle.failure.specs.declared.Failure.TheVariants.{Refused};
ghost use Rattle.image.specs.Faults.{image_fault, layer_letter};

use failure::Failure;

// The layer that refuses. An image is refused by the first two, a load by the third as well, a printout by all.
#[derive(Clone, Copy, PartialEq, Eq, Debug)]
pub enum Layer {
    // the image as a whole, and the chain through it
    Image,
    // a record by itself
    Record,
    // the booking of a record's transfer
    Booking,
    // the fit to the sizes and rounds in the head
    Fit,
}

impl Layer {
    // The letter by which the layer is told.
    pub fn letter(self) -> char
        ensures { result ≡ layer_letter self }
    {
        match self {
            Layer::Image => 'I',
            Layer::Record => 'R',
            Layer::Booking => 'B',
            Layer::Fit => 'F',
        }
    }
}

// Why an image is refused; a case about one cell holds the number of the cell.
#[derive(Clone, Copy, PartialEq, Eq, Debug)]
pub enum ImageRefusal {
    // the length is not a multiple of 16 from 16 to 32,768
    Length,
    // the mark or a spare byte of the head is wrong
    Head,
    // this cell holds an index past the last cell
    PastEnd(u16),
    // this cell holds the index of a cell that was already visited
    Visited(u16),
    // this cell's kind is 0 or 3 to 127
    Kind(u16),
    // a spare byte of this cell is not zero
    Spare(u16),
    // the label of this cell is not within the text that it names
    Label(u16),
}

impl ImageRefusal {
    // The number that docs/REFUSALS.md gives the refusal.
    pub fn number(self) -> u8
        ensures { result ≡ (image_fault self).refusal.number }
    {
        match self {
            ImageRefusal::Length => 15,
            ImageRefusal::Head => 16,
            ImageRefusal::PastEnd(_) => 18,
            ImageRefusal::Visited(_) => 19,
            ImageRefusal::Kind(_) => 20,
            ImageRefusal::Spare(_) => 21,
            ImageRefusal::Label(_) => 22,
        }
    }

    // The cell that the refusal is about; 0 is the head.
    pub fn cell(self) -> u16
        ensures { result ≡ (image_fault self).cell }
    {
        match self {
            ImageRefusal::Length | ImageRefusal::Head => 0,
            ImageRefusal::PastEnd(cell)
            | ImageRefusal::Visited(cell)
            | ImageRefusal::Kind(cell)
            | ImageRefusal::Spare(cell)
            | ImageRefusal::Label(cell) => cell,
        }
    }

    // The layer that refuses.
    pub fn layer(self) -> Layer
        ensures { result ≡ (image_fault self).layer }
    {
        match self {
            ImageRefusal::Length
            | ImageRefusal::Head
            | ImageRefusal::PastEnd(_)
            | ImageRefusal::Visited(_) => Layer::Image,
            ImageRefusal::Kind(_) | ImageRefusal::Spare(_) | ImageRefusal::Label(_) =>
                Layer::Record,
        }
    }
}

// Why something is not read from an image: the image is refused, or there is no memory.
pub type ImageError = Failure<ImageRefusal>;

// Written by hand, since a derived one would not tell which case it gives.
impl From<ImageRefusal> for Failure<ImageRefusal> {
    ghost from_gives = { λ e r. r ≡ Refused e };

    fn from(e: ImageRefusal) -> Failure<ImageRefusal> {
        Failure::Refused(e)
    }
}
