// Sheets: a lock's set-up and orders as bytes. What the writer writes the reader reads back, and whatever the
// reader accepts is the one sheet of its contents.
#![tactic(auto)]

mod checks;
mod reading;
mod walk;
mod writing;

pub use reading::Reader;
pub use walk::SheetOrders;
pub use writing::write;
