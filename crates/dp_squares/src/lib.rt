//! Certificates that are made: for gains and a form, the squares that show what the form claims of them, and the least `b` and `r`.
//!
//! Finding a certificate is finding its form. All else follows from gains and form by arithmetic: each matrix that squares are to show
//! ([`dp_cert::matrix3`], [`dp_cert::matrix5`]) has squares that are made for it ([`dp_form::made`]), and `b` and `r` are the least
//! roots of two numbers ([`dp_cert::under_roots`]). [`make_cert`] makes them. Whether what was made is valid, [`dp_cert::accept`] says:
//! a made list shows its matrix where the matrix is positive enough, and nothing else is promised of it. [`make_in_range`] takes any gains
//! and certificate, and refuses the first number that is out of range.
//!
//! [`cert_line`] prints the lines of a certificate as the plant file has them. Nothing here takes memory.
#![tactic(auto)]

mod arrays;
pub mod laws;
mod lines;
mod made;
mod ranges;
mod roots;

pub use arrays::LINE;
pub use lines::{Line, cert_line, line_count};
pub use made::make_cert;
pub use ranges::make_in_range;

#[cfg(test)]
mod tests;
