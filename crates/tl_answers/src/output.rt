//! What an answer gives.
ghost use Rattle.std.specs.Prelude.{◌≡◌};
ghost use Rattle.tl_answers.specs.Findings.{finding_of, listed, of_nodes, whole};

/// Bytes, and whether something was found.
#[derive(Drop)]
pub struct Output {
    pub bytes: Vec<u8>,
    pub is_found: bool,
}

impl Output {
    /// That of what looks for nothing, and finds all that it gives.
    pub fn whole(bytes: Vec<u8>) -> Self
        ensures { finding_of result ≡ whole bytes.items }
    {
        Output {
            bytes,
            is_found: true,
        }
    }

    /// That of answers of which none is empty: there are some where there are bytes.
    pub fn from_lines(bytes: Vec<u8>) -> Self
        ensures { finding_of result ≡ listed bytes.items }
    {
        let is_found = !bytes.is_empty();
        Output { bytes, is_found }
    }

    /// That of these nodes: something is found where there are any.
    pub fn of_nodes(numbers: &[usize], bytes: Vec<u8>) -> Self
        ensures { finding_of result ≡ of_nodes numbers.now bytes.items }
    {
        let is_found = !numbers.is_empty();
        Output { bytes, is_found }
    }
}
