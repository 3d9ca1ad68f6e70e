// Job images: what their bytes mean.
//
//   refusal     why an image is refused
//   text        faults and refusals as text
//   head        the head of an image
//   fields      the fields of a record's cell
//   labels      the labels of transfers
//   record      a record with its part of the image
//   cells       the reader that goes from cell to cell
//   records     the reader that goes from record to record
//   opened      an image whose length and head are right
//   transfers   the transfers of an image
#![tactic(auto)]

pub mod cells;
pub mod fields;
pub mod head;
pub mod labels;
pub mod opened;
pub mod record;
pub mod records;
pub mod refusal;
pub mod text;
pub mod transfers;
