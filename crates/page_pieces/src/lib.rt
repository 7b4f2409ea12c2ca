//! The pieces that a page in HTML is made of: bytes as they are, numbers, and ids with what HTML reads as marks escaped.
#![tactic(auto)]

mod laws;
mod pieces;

pub use laws::{escaped_texts_are_plain, escaped_texts_lose_nothing};
pub use pieces::{Piece, put_pieces};

#[cfg(test)]
mod tests {
    use crate::Piece::{Id, Number, Text};
    use crate::put_pieces;
    use std::test::Fail;

    // Each byte that HTML reads as a mark has its entity, and no other byte changes.
    #[test]
    fn pieces(rt: HostRuntime) -> Result<(), Fail> {
        let mut text = Vec::new(rt.alloc());
        put_pieces(
            &mut text,
            &[
                Text(b"<b>"),
                Number(1200),
                Text(b"</b> "),
                Id(b"A<B>&\"C'; d"),
            ],
        )?;
        assert_eq!(rt;
            text.as_slice(),
            b"<b>1200</b> A&lt;B&gt;&amp;&quot;C&#39;; d".as_slice()
        );
        put_pieces(&mut text, &[])?;
        assert_eq!(rt; text.len(), 42);
        Ok(())
    }
}
