// The type codes: seven kinds of shape in four dimensions.
ghost use Rattle.std.specs.Prelude.{◌≡◌};
ghost use Rattle.shapes.specs.Codes as Codes;

// The kinds of shape, each with its number.
#[derive(Clone, Copy, PartialEq, Eq, Debug)]
pub enum Kind {
    Point = 1,
    Line = 2,
    Polygon = 3,
    MultiPoint = 4,
    MultiLine = 5,
    MultiPolygon = 6,
    Collection = 7,
}

// The dimensions, each with the thousands that it adds to a code.
#[derive(Clone, Copy, PartialEq, Eq, Debug)]
pub enum Dimension {
    Xy = 0,
    Xyz = 1,
    Xym = 2,
    Xyzm = 3,
}

#[derive(Clone, Copy, PartialEq, Eq, Debug)]
pub struct Code {
    pub kind: Kind,
    pub dim: Dimension,
}

// A number that stands for no code, no kind or no dimension.
#[derive(Clone, Copy, PartialEq, Eq, Debug)]
pub struct UnknownCode(pub u32);

impl From<Kind> for u32 {
    ghost from_gives = { λ kind n. n ≡ Codes.kind_number kind };

    fn from(kind: Kind) -> u32 {
        kind as u32
    }
}

impl TryFrom<u32> for Kind {
    type Error = UnknownCode;

    ghost try_from_gives = { λ n r. Codes.Reads (Codes.kind_of n) n r };

    fn try_from(n: u32) -> Result<Kind, UnknownCode> {
        match n {
            1 => Ok(Kind::Point),
            2 => Ok(Kind::Line),
            3 => Ok(Kind::Polygon),
            4 => Ok(Kind::MultiPoint),
            5 => Ok(Kind::MultiLine),
            6 => Ok(Kind::MultiPolygon),
            7 => Ok(Kind::Collection),
            _ => Err(UnknownCode(n)),
        }
    }
}

impl Kind {
    // Whether a container of this kind takes parts of that kind.
    fn takes(self, part: Kind) -> bool
        ensures { result ≡ Codes.takes self part }
    {
        matches!(
            (self, part),
            (Kind::Collection, _)
                | (Kind::MultiPoint, Kind::Point)
                | (Kind::MultiLine, Kind::Line)
                | (Kind::MultiPolygon, Kind::Polygon)
        )
    }
}

impl From<Dimension> for u32 {
    ghost from_gives = { λ dim n. n ≡ Codes.dim_number dim };

    fn from(dim: Dimension) -> u32 {
        dim as u32
    }
}

impl TryFrom<u32> for Dimension {
    type Error = UnknownCode;

    ghost try_from_gives = { λ n r. Codes.Reads (Codes.dim_of n) n r };

    fn try_from(n: u32) -> Result<Dimension, UnknownCode> {
        match n {
            0 => Ok(Dimension::Xy),
            1 => Ok(Dimension::Xyz),
            2 => Ok(Dimension::Xym),
            3 => Ok(Dimension::Xyzm),
            _ => Err(UnknownCode(n)),
        }
    }
}

impl Dimension {
    // The ordinates of one coordinate.
    pub(crate) fn width(self) -> usize
        ensures { result ≡ Codes.width self }
    {
        match self {
            Dimension::Xy => 2,
            Dimension::Xyz => 3,
            Dimension::Xym => 3,
            Dimension::Xyzm => 4,
        }
    }
}

impl From<Code> for u32 {
    ghost from_gives = { λ code n. n ≡ Codes.code_number code };

    fn from(code: Code) -> u32 {
        u32::from(code.kind) + 1000 * u32::from(code.dim)
    }
}

// The code that a number is, if it is one of the 28.
impl TryFrom<u32> for Code {
    type Error = UnknownCode;

    ghost try_from_gives = { λ n r. Codes.Reads (Codes.code_of n) n r };

    fn try_from(n: u32) -> Result<Code, UnknownCode> {
        let kind = Kind::try_from(n % 1000).map_err(|_| UnknownCode(n))?;
        let dim = Dimension::try_from(n / 1000).map_err(|_| UnknownCode(n))?;
        Ok(Code { kind, dim })
    }
}

impl Code {
    // Whether a shape of this code may stand in a container of that code, or outermost.
    pub(crate) fn fits_in(self, outer: Option<Code>) -> bool
        ensures { result ≡ Codes.fits outer self }
    {
        match outer {
            None => true,
            Some(o) => o.kind.takes(self.kind) && o.dim == self.dim,
        }
    }
}
