//! What a journal is written to and read from: bytes that are appended and made to stay, a body over a file with room and one in memory, the
//! header, and whole lines out of bytes. It knows nothing of commands.
#![tactic(auto)]

mod device;
mod device_log;
mod header;
mod lines;
mod log;
mod memory;
mod placed;
mod room_file;

pub use device::Device;
pub use device_log::DeviceLog;
pub use header::{Heading, header_line, judge_heading};
pub use lines::LogLines;
pub use log::{Log, LogFault, LogState};
pub use memory::MemoryDevice;
pub use placed::PlacedFile;
pub use room_file::RoomFile;
