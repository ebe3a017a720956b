use super::*;
use std::process::Abort;

const BLANK: u8 = 0xaa;

// The line stands at the start of a blank buffer, and the rest is blank still. The tests of sessions have a helper of this form for
// their own call, in a crate above.
fn fits(rt: &impl Abort, line: Line<'_>, text: &[u8], out: &mut [u8]) {
    let len = text.len();
    assert!(rt; len <= out.len());
    assert_eq!(rt; write_line(line, out), Ok(len));
    assert_eq!(rt; &out[..len], text);
    assert!(rt; out[len..].iter().all(|b| *b == BLANK));
}

// The line is refused, and the blank buffer is blank still.
fn too_short(rt: &impl Abort, line: Line<'_>, out: &mut [u8]) {
    assert_eq!(rt; write_line(line, out), Err(LineFault::TooShort));
    assert!(rt; out.iter().all(|b| *b == BLANK));
}

// The line in a buffer with room behind it, in one that it fills, and in one that is a byte too short.
fn reads(rt: &impl Abort, line: Line<'_>, text: &[u8]) {
    let len = text.len();
    assert!(rt; 0 < len && len < 64);
    assert_eq!(rt; line_len(line), len);
    fits(rt, line, text, &mut [BLANK; 64]);
    fits(rt, line, text, &mut [BLANK; 64][0..len]);
    too_short(rt, line, &mut [BLANK; 64][0..len - 1]);
}

#[test]
fn each_kind_of_line(rt: HostRuntime) {
    reads(&rt, Line::View(&[]), b"v\n");
    reads(&rt, Line::View(&[5, 7, 4]), b"v 5 7 4\n");
    reads(
        &rt,
        Line::View(&[18446744073709551615, 0, 10]),
        b"v 18446744073709551615 0 10\n",
    );
    reads(&rt, Line::Simplified(true), b"s 1\n");
    reads(&rt, Line::Complicated(false), b"c 0\n");
    reads(&rt, Line::Refused(5), b"refused 5\n");
    reads(&rt, Line::RefusedAt(10, 3), b"refused 10 3\n");
}

#[test]
fn one_line_after_another(rt: HostRuntime) {
    let mut out = [BLANK; 12];
    assert_eq!(rt; write_at(Line::View(&[5, 70]), &mut out, 0), Ok(7));
    assert_eq!(rt; write_at(Line::Simplified(true), &mut out, 7), Ok(11));
    assert_eq!(rt;
        write_at(Line::Complicated(true), &mut out, 11),
        Err(LineFault::TooShort)
    );
    assert_eq!(rt;
        write_at(Line::Complicated(true), &mut out, 13),
        Err(LineFault::TooShort)
    );
    assert_eq!(rt; out.as_slice(), b"v 5 70\ns 1\n\xaa".as_slice());
}

#[test]
fn the_number_of_the_fault(rt: HostRuntime) {
    assert_eq!(rt; LineFault::TooShort.number(), 7);
}
