use cfs_words::{Flags, LARGEST_NUMBER, Seek, Words, number_in};
use std::test::Fail;

#[test]
fn flags_and_modes_are_read(rt: HostRuntime) -> Result<(), Fail> {
    for (text, is_read, mode) in [
        ("r", true, 0),
        ("wxa", true, 0),
        ("wc 0000", true, 0),
        ("rwcxa 0777", true, 511),
        ("", false, 0),
        ("c 0644", false, 0),
        ("wr", false, 0),
        ("rac", false, 0),
        ("rr", false, 0),
        ("rwc", false, 0),
        ("rwc 644", false, 0),
        ("rwc 1644", false, 0),
        ("rwc 0648", false, 0),
    ] {
        let read = Words::of(text.as_bytes()).opening();
        assert_eq!(rt; read.is_ok(), is_read, "{text}");
        if let Ok((_, found)) = read {
            assert_eq!(rt; found, mode, "{text}");
        }
    }
    Ok(())
}

#[test]
fn words_have_values(rt: HostRuntime) -> Result<(), Fail> {
    let flags = Flags {
        read: false,
        write: true,
        create: false,
        exclusive: true,
        append: false,
    };
    assert_eq!(rt; Words::of(b"wx").opening().ok(), Some((flags, 0)));
    assert_eq!(rt; Words::of(b"cur -0").whence().ok(), Some(Seek::On(0)));
    assert_eq!(rt; Words::of(b"cur -7").whence().ok(), Some(Seek::Back(7)));
    assert_eq!(rt; number_in(b"010", 0, 10), None);
    assert_eq!(rt; LARGEST_NUMBER, 4_294_967_295);
    Ok(())
}
