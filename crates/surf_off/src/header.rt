//! The keyword of an OFF text.
ghost use Rattle.std.specs.Prelude.{◌≡◌};
ghost use Rattle.surf_off.specs.Keywords.{keyword, header_of};

/// The keyword of an OFF text: `ST` for texture coordinates, `C` for colours and `N` for normals on
/// the vertex lines, which are kept as text whatever the keyword says.
#[derive(Clone, Copy, Debug, PartialEq, Eq)]
pub enum Header {
    Off,
    Coff,
    Noff,
    Cnoff,
    Stoff,
    Stcoff,
    Stnoff,
    Stcnoff,
}

impl Header {
    /// Its keyword, as a text has it.
    pub fn keyword(self) -> &'static [u8]
        ensures keyword { result.now ≡ keyword self }
    {
        match self {
            Header::Off => b"OFF",
            Header::Coff => b"COFF",
            Header::Noff => b"NOFF",
            Header::Cnoff => b"CNOFF",
            Header::Stoff => b"STOFF",
            Header::Stcoff => b"STCOFF",
            Header::Stnoff => b"STNOFF",
            Header::Stcnoff => b"STCNOFF",
        }
    }
}

pub(crate) fn read_header(word: &[u8]) -> Option<Header>
    ensures header { result ≡ header_of word.now }
{
    if word == b"OFF".as_slice() {
        Some(Header::Off)
    } else if word == b"COFF".as_slice() {
        Some(Header::Coff)
    } else if word == b"NOFF".as_slice() {
        Some(Header::Noff)
    } else if word == b"CNOFF".as_slice() {
        Some(Header::Cnoff)
    } else if word == b"STOFF".as_slice() {
        Some(Header::Stoff)
    } else if word == b"STCOFF".as_slice() {
        Some(Header::Stcoff)
    } else if word == b"STNOFF".as_slice() {
        Some(Header::Stnoff)
    } else if word == b"STCNOFF".as_slice() {
        Some(Header::Stcnoff)
    } else {
        None
    }
}
