// Writing bytes and numbers on a page.
ghost use Rattle.std.specs.Prelude.{◌≡◌, [], ◌++◌, decimal};
ghost use Rattle.printer.specs.Pages.{Room};

use crate::page::Page;
use text::read::TEXT_LIMIT;

impl Page {
    pub(crate) fn new() -> Page
        ensures { result ≡ [] }
    {
        Page {
            bytes: [0; TEXT_LIMIT],
            len: 0,
        }
    }

    pub(crate) fn text(&self) -> &[u8]
        ensures { result.now ≡ self.now }
    {
        &self.bytes[..self.len]
    }

    pub(super) fn push(&mut self, more: &[u8])
        requires { Room self.old more.now }
        ensures { self.new ≡ self.old ++ more.now }
    {
        let end = self.len + more.len();
        self.bytes[self.len..end].copy_from_slice(more);
        self.len = end;
    }

    /// Writes the digits of a number, the front of the number first.
    // By hand: `write!` does not promise that it succeeds where there is room, and with a buffer of itoa's printing takes a third longer.
    pub(super) fn push_number(&mut self, n: u32)
        requires { Room self.old (decimal n) }
        ensures { self.new ≡ self.old ++ decimal n }
    {
        if n < 10 {
            return self.push(&[b'0' + n as u8]);
        }
        self.push_number(n / 10);
        self.push(&[b'0' + (n % 10) as u8]);
    }
}
