//! What a made certificate is: each law is the contract of a function that does nothing.
ghost use Rattle.dp_squares.specs.Roots.{MadeRootIsLeast};
ghost use Rattle.dp_squares.specs.Section.{TextIsRead};

/// Where the number under a root is at most 2^100, the made root meets the condition on it, and no lesser number from 0 on does.
pub fn made_root_is_least()
    ensures { MadeRootIsLeast }
{}

/// A document of which `[cert]` has the keys that [`cert_line`](crate::cert_line) prints, each with the value that it prints, is read
/// as the certificate, whatever else it has there and elsewhere: so the text may stand in place of the file's own section.
pub fn text_is_read()
    ensures { TextIsRead }
{}
