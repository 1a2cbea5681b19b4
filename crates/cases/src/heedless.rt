// Standard output, where the run goes on behind a write that fails.
use std::io;
use std::io::Write;
use std::rt::Stdout;

#[derive(Drop)]
pub(crate) struct Heedless(pub(crate) Stdout);

impl Write for Heedless {
    fn write(&mut self, buf: &[u8]) -> io::Result<usize> {
        let _ = self.0.write_all(buf);
        Ok(buf.len())
    }

    fn flush(&mut self) -> io::Result<()> {
        Ok(())
    }
}
