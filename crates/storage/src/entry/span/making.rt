// Kind 2: a span as an entry.
ghost use Rattle.std.specs.Prelude.{◌≡◌};
ghost use Rattle.storage.specs.Spans.{span_code, span_decoded, span_of, no_span};
ghost use Rattle.storage.specs.SpanCodes;
ghost use Rattle.std.proofs.Common.{rules};

use super::Span;
use crate::entry::Entry;

impl Span {
    pub fn new(offset: u32, length: u32) -> Option<Span>
        ensures { result ≡ span_of offset length }
    {
        if offset <= u32::MAX - length && (length > 0 || offset == 0) {
            Some(Span { offset, length })
        } else {
            None
        }
    }
}

impl Entry for Span {
    const KIND: u8 = 2;

    ghost KIND = { 2 };

    ghost blank = { no_span };

    ghost code = { span_code };

    ghost decoded = { span_decoded };

    ghost reads = { λ s. SpanCodes.reads s };

    ghost only = { Prim.search rules };

    ghost zero = { Prim.search rules };

    ghost fits = { Prim.search rules };

    fn blank() -> Span {
        Span {
            offset: 0,
            length: 0,
        }
    }

    fn code(&self) -> u64 {
        u64::from(self.offset) * 4_294_967_296 + u64::from(self.length)
    }

    fn decode(number: u64) -> Option<Span> {
        Span::new(
            (number / 4_294_967_296) as u32,
            (number % 4_294_967_296) as u32,
        )
    }
}
