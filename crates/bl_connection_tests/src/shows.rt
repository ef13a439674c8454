//! Replies to works that show one text.
use bl_engine::block::Replies;
use bl_wire::put::{put, put_number};
use bl_wire::watched::Watched;
use std::io::Write;

/// Replies to works that show this text, each to its ordinal; those up to an ordinal were taken.
#[derive(Drop)]
pub struct Shows<'a> {
    pub text: &'a [u8],
    pub upto: u32,
}

impl Replies for Shows<'_> {
    ghost use Rattle.bl_connection_tests.specs.Shown.{left_of, Stands};

    ghost left = { left_of };

    ghost stands = { Stands };

    fn put_part<W: Write>(&mut self, ordinal: u32, writer: &mut Watched<W>) -> bool {
        put_number(writer, ordinal);
        put(writer, b" done \"");
        put(writer, self.text);
        put(writer, b"\"\n");
        self.upto = ordinal;
        true
    }
}
