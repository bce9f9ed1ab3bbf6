//! A journal's file at a start and behind it: claimed for this process, its lines asked of a hub again, and gone on with. It opens files, and
//! knows a database by the hub alone.
#![tactic(auto)]

mod asking;
mod beginning;
mod claim;
mod device;
mod digest;
mod fault;
mod file_reader;
mod file_writer;
mod going_on;
mod journal_file;
mod journal_text;
mod names;
mod opening;
mod place;
mod rolling;
mod segments;
mod system_files;
mod text_hash;

pub use asking::{Asked, Newest, ask_journal, attach_replayer, claim_newest, start_place};
pub use beginning::{next_segment, sync};
pub use claim::{check_name, claimed};
pub use device::{JournalDevice, Keeping};
pub use digest::fingerprint;
pub use fault::{JournalFailure, JournalFault};
pub use file_reader::FileReader;
pub use file_writer::FileWriter;
pub use going_on::{log_of_newest, opened_behind};
pub use journal_file::{JournalFile, JournalFiles};
pub use journal_text::text_size;
pub use names::{base_path, new_base_path, next_path, segment_number, segment_path};
pub use opening::{JournalDurable, Journaled, log_error, read_heading, without};
pub use place::{JournalSchema, Place, Position, first_place, segment_header};
pub use rolling::{Rolling, place_behind, roll};
pub use segments::{next_place, pass_over, segment_file};
pub use system_files::SystemFiles;
