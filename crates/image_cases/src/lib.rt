// Images, sound and damaged, and what is listed of them. There are only tests here.
//
//   told        an image from a base, and what a caller is told of it, as text
//   tests       the images by what is damaged, with the text of each
#![tactic(auto)]

#[cfg(test)]
mod tests;
#[cfg(test)]
mod told;
