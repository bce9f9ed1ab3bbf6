//! A file as a writer: what is written goes behind what it has. It looks at no byte.
use mi_log::Device;
use std::io;
use std::io::Write;

/// A file that is written to.
#[derive(Drop)]
pub struct FileWriter<F> {
    file: F,
}

impl<F> FileWriter<F> {
    ghost use Rattle.std.specs.Prelude.{◌≡◌};

    /// What is written goes behind what this file has.
    pub fn new(file: F) -> FileWriter<F>
        ensures { result.file ≡ file }
    {
        FileWriter { file }
    }

    /// The file.
    pub fn into_file(self) -> F
        ensures { result ≡ self.file }
    {
        self.file
    }
}

impl<F: Device> Write for FileWriter<F> {
    ghost contents = { λ w. F.contents w.file };

    fn write(&mut self, buf: &[u8]) -> io::Result<usize> {
        self.file.write(buf)
    }

    fn flush(&mut self) -> io::Result<()> {
        Ok(())
    }
}
