// The part of the product that speaks in a refusal.
#[derive(Clone, Copy, PartialEq, Eq, Debug)]
pub enum Layer {
    Cipher,
    Buffer,
    Timetable,
    Order,
    Sheet,
    Bench,
    Message,
    Trace,
    Book,
}

// What a refusal tells: its number, its layer and the byte of the sheet that it is about, 0 where it is about none.
#[derive(Clone, Copy, PartialEq, Eq, Debug)]
pub struct Refusal {
    pub number: u8,
    pub layer: Layer,
    pub place: usize,
}
