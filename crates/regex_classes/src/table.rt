// The twelve classes of characters by name, with their members in the POSIX locale as ranges of bytes (document 02, T-01).

// The bytes from the first to the second.
#[derive(Clone, Copy)]
pub struct Span(pub u8, pub u8);

#[derive(Clone, Copy)]
pub struct Class {
    pub name: &'static [u8],
    pub ranges: &'static [Span],
}

pub static CLASSES: [Class; 12] = [
    Class {
        name: b"alnum",
        ranges: &[Span(b'0', b'9'), Span(b'A', b'Z'), Span(b'a', b'z')],
    },
    Class {
        name: b"alpha",
        ranges: &[Span(b'A', b'Z'), Span(b'a', b'z')],
    },
    Class {
        name: b"blank",
        ranges: &[Span(9, 9), Span(b' ', b' ')],
    },
    Class {
        name: b"cntrl",
        ranges: &[Span(0, 31), Span(127, 127)],
    },
    Class {
        name: b"digit",
        ranges: &[Span(b'0', b'9')],
    },
    Class {
        name: b"graph",
        ranges: &[Span(b'!', b'~')],
    },
    Class {
        name: b"lower",
        ranges: &[Span(b'a', b'z')],
    },
    Class {
        name: b"print",
        ranges: &[Span(b' ', b'~')],
    },
    Class {
        name: b"punct",
        ranges: &[
            Span(b'!', b'/'),
            Span(b':', b'@'),
            Span(b'[', b'`'),
            Span(b'{', b'~'),
        ],
    },
    Class {
        name: b"space",
        ranges: &[Span(9, 13), Span(b' ', b' ')],
    },
    Class {
        name: b"upper",
        ranges: &[Span(b'A', b'Z')],
    },
    Class {
        name: b"xdigit",
        ranges: &[Span(b'0', b'9'), Span(b'A', b'F'), Span(b'a', b'f')],
    },
];
