// Why a call was refused: a cause with its number and layer, the place that it names and, where the book added one, a page.
ghost use Rattle.std.specs.Prelude.{◌≡◌, Some, None};
ghost use Rattle.interval.specs.Faults as Faults;

use std::fmt;

// The causes of a refusal, each with its number.
#[derive(Clone, Copy, PartialEq, Eq, Debug)]
pub enum Cause {
    // a field is not there whole
    Truncated = 1,
    // an order byte is neither 0 nor 1
    ByteOrder = 2,
    // a type code is not one of the 28
    TypeCode = 3,
    // a part does not fit its container
    PartType = 4,
    // a part would stand on level 33
    TooDeep = 5,
    // bytes follow the finished shape
    TrailingBytes = 6,
    // the slip is not for the open page
    WrongSlip = 7,
    // a page is open already
    PageOpen = 8,
    // no usable record is free
    TableFull = 9,
    // no closed page has that number
    NoSuchPage = 10,
    // a pair has a NaN end
    NanEnd = 11,
    // a pair goes down, and its kind cannot hold it
    Downward = 12,
    // a shape table's code is not one of the 28
    TableCode = 13,
}

// What refused, each with its number.
#[derive(Clone, Copy, PartialEq, Eq, Debug)]
pub enum Layer {
    Bytes = 1,
    ShapeTable = 2,
    Book = 3,
    Window = 4,
}

impl From<Cause> for u8 {
    ghost from_gives = { λ c n. n ≡ Faults.number c };

    fn from(cause: Cause) -> u8 {
        cause as u8
    }
}

impl From<Layer> for u8 {
    ghost from_gives = { λ l n. n ≡ Faults.layer_number l };

    fn from(layer: Layer) -> u8 {
        layer as u8
    }
}

impl Cause {
    // What refuses for this cause.
    pub fn layer(self) -> Layer
        ensures { result ≡ Faults.layer self }
    {
        match self {
            Cause::Truncated
            | Cause::ByteOrder
            | Cause::TypeCode
            | Cause::PartType
            | Cause::TooDeep
            | Cause::TrailingBytes => Layer::Bytes,
            Cause::TableCode => Layer::ShapeTable,
            Cause::WrongSlip | Cause::PageOpen | Cause::TableFull | Cause::NoSuchPage => {
                Layer::Book
            }
            Cause::NanEnd | Cause::Downward => Layer::Window,
        }
    }
}

#[derive(Clone, Copy, PartialEq, Eq, Debug)]
pub struct Fault {
    pub cause: Cause,
    pub place: usize,
    pub page: Option<usize>,
}

impl Fault {
    pub fn new(cause: Cause, place: usize) -> Self
        ensures { result ≡ Faults.at cause place }
    {
        Fault {
            cause,
            place,
            page: None,
        }
    }

    // The same fault, met while that page was filled or asked for.
    pub fn on_page(self, page: usize) -> Self
        ensures { result ≡ Faults.on_page self page }
    {
        Fault {
            page: Some(page),
            ..self
        }
    }
}

impl fmt::Display for Fault {
    fn fmt<W: fmt::Write>(&self, f: &mut fmt::Formatter<W>) -> fmt::Result {
        let number = u8::from(self.cause);
        let layer = u8::from(self.cause.layer());
        let place = self.place;
        match self.page {
            None => write!(f, "refused {number} layer {layer} place {place}"),
            Some(page) => write!(
                f,
                "refused {number} layer {layer} place {place} page {page}"
            ),
        }
    }
}
