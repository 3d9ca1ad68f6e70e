// What is printed of an image.

// What is printed, and whether it is the line of a refusal.
#[derive(Drop)]
pub struct Printout {
    pub text: Vec<u8>,
    pub is_refusal: bool,
}
