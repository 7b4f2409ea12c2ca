//! Lines and words of a text, and readers that take a value's one spelling from the front of them.
#![tactic(auto)]

mod lines;
mod puts;
mod stops;
mod words;

pub use lines::{count_lines, next_line};
pub use plan_memory::Memory;
pub use puts::{put_named, put_text};
pub use stops::{LineStop, LinesLeft, Stop};
pub use words::{is_end, next_word, number_word, number_words, skip_word, this_number_word};

#[cfg(test)]
mod tests {
    use crate::{
        count_lines, is_end, next_line, next_word, number_word, number_words, put_named, put_text,
        skip_word, this_number_word,
    };
    use std::test::Fail;

    #[test]
    fn lines(rt: HostRuntime) -> Result<(), Fail> {
        let (first, rest) = next_line(b"one\n\nthree").ok_or("no line")?;
        assert_eq!(rt; first, b"one".as_slice());
        assert_eq!(rt; rest, b"\nthree".as_slice());
        assert_eq!(rt; count_lines(b"one\n\nthree"), 2);
        assert!(rt; next_line(b"three").is_none());
        Ok(())
    }

    #[test]
    fn words(rt: HostRuntime) -> Result<(), Fail> {
        let line = b"row 12 7 0".as_slice();
        let (first, _) = next_word(Some(line)).ok_or("no word")?;
        assert_eq!(rt; first, b"row".as_slice());
        let rest = skip_word(Some(line), b"row").ok_or("another word")?;
        let (number, after) = number_word(rest, 12).ok_or("no number")?;
        assert_eq!(rt; number, 12);
        assert!(rt; number_word(rest, 11).is_none());
        assert!(rt; this_number_word(after, 7).is_some());
        let (numbers, end) = number_words(rt.alloc(), rest, 3, 12)?;
        assert_eq!(rt; numbers.as_slice(), [12, 7, 0].as_slice());
        assert!(rt; is_end(end));
        assert!(rt; number_words(rt.alloc(), Some(b"07"), 1, 12).is_err());
        Ok(())
    }

    #[test]
    fn puts(rt: HostRuntime) -> Result<(), Fail> {
        let mut text = Vec::new(rt.alloc());
        put_named(&mut text, b"count ", 8)?;
        put_text(&mut text, b"\n")?;
        assert_eq!(rt; text.as_slice(), b"count 8\n".as_slice());
        Ok(())
    }
}
