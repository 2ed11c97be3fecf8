// Files put to both loads: every refusal at every word that can be at fault, and files that are accepted.
use crate::strip::Strip;
use crate::tests::read;
use dimacs::load::{load_map, load_sheet};
use ruler::map::Map;
use sheet::sheet::Sheet;
use std::alloc::Global;
use std::process::Abort;
use std::test::Fail;

// Accepted, or a refusal's number, line, word and place.
type Verdict = Result<(), (u32, usize, usize, u32)>;

#[derive(Clone, Copy)]
struct Case {
    file: &'static [u8],
    verdict: Verdict,
}

fn accepts(file: &'static [u8]) -> Case {
    Case {
        file,
        verdict: Ok(()),
    }
}

fn refuses(file: &'static [u8], fault: (u32, usize, usize, u32)) -> Case {
    Case {
        file,
        verdict: Err(fault),
    }
}

fn by_map(file: &[u8]) -> Verdict {
    let mut map = Map::empty();
    read(load_map(&mut map, file))
}

// Every id is a site that the strip knows, so both loads have the same answer.
fn by_sheet(file: &[u8]) -> Verdict {
    let mut sheet = Sheet::open(Strip);
    read(load_sheet(&mut sheet, file))
}

// The number of the file, from 0, is compared along, so that a failure names it.
fn check_all(rt: &impl Abort, cases: &[Case]) {
    for (i, case) in cases.iter().enumerate() {
        assert_eq!(rt; (i, by_map(case.file)), (i, case.verdict));
        assert_eq!(rt; (i, by_sheet(case.file)), (i, case.verdict));
    }
}

#[test]
fn a_file_ends_with_byte_10(rt: HostRuntime) {
    check_all(
        &rt,
        &[
            refuses(b"", (23, 0, 0, 0)),
            refuses(b"x", (23, 0, 0, 0)),
            refuses(b"p min 1 0", (23, 0, 0, 0)),
            refuses(b"p min 1 0\n ", (23, 0, 0, 0)),
            refuses(b"p min 1 0\n\r", (23, 0, 0, 0)),
            refuses(b"p min 1 0\nc", (23, 0, 0, 0)),
            refuses(b"x\nc", (23, 0, 0, 0)),
            accepts(b"p min 1 0\n"),
        ],
    );
}

#[test]
fn a_line_is_of_a_known_kind(rt: HostRuntime) {
    check_all(
        &rt,
        &[
            refuses(b"x\n", (24, 1, 1, 0)),
            refuses(b"0\n", (24, 1, 1, 0)),
            refuses(b"s 9\n", (24, 1, 1, 0)),
            refuses(b"C upper case\n", (24, 1, 1, 0)),
            refuses(b"cx\n", (24, 1, 1, 0)),
            refuses(b"cc\n", (24, 1, 1, 0)),
            refuses(b"c\tx\n", (24, 1, 1, 0)),
            refuses(b"c\r\n", (24, 1, 1, 0)),
            refuses(b"P min 1 0\n", (24, 1, 1, 0)),
            refuses(b"pp min 1 0\n", (24, 1, 1, 0)),
            refuses(b"p\tmin\t1\t0\n", (24, 1, 1, 0)),
            refuses(b"\tp min 1 0\n", (24, 1, 1, 0)),
            refuses(b"\rp min 1 0\n", (24, 1, 1, 0)),
            refuses(b"p min 1 0\n\r\n", (24, 2, 1, 0)),
            refuses(b"p min 1 0\n\t\n", (24, 2, 1, 0)),
            refuses(b"p min 1 0\n\x00\n", (24, 2, 1, 0)),
            refuses(b"p min 1 0\n\xff\n", (24, 2, 1, 0)),
            refuses(b"p min 2 0\nnn 1 1\n", (24, 2, 1, 0)),
            refuses(b"p min 2 0\nn1 1\n", (24, 2, 1, 0)),
            refuses(b"p min 2 1\naa 1 2 0 9 5\n", (24, 2, 1, 0)),
            refuses(b"p min 2 1\n   arc 1 2 0 9 5\n", (24, 2, 1, 0)),
        ],
    );
}

#[test]
fn a_comment_holds_any_bytes(rt: HostRuntime) {
    check_all(
        &rt,
        &[
            accepts(b"c\np min 1 0\n"),
            accepts(b"   c   \np min 1 0\n"),
            accepts(b"c c cx\np min 1 0\n"),
            accepts(b"c p min 0 0\np min 1 0\n"),
            accepts(b"c \x00\xff\x80 \t\r \"\np min 1 0\n"),
            accepts(b"p min 1 0\nc at the end\nc\n"),
            accepts(b"p min 2 1\nc\nn 1 1\nc\na 1 2 0 1 5\nc\n"),
            refuses(b"c\nc\nc\nx\n", (24, 4, 1, 0)),
            refuses(b"c \r\x0b\x0c\nx\n", (24, 2, 1, 0)),
        ],
    );
}

#[test]
fn spaces_and_blank_lines_are_skipped(rt: HostRuntime) {
    check_all(
        &rt,
        &[
            accepts(b"   p  min   1    0   \n"),
            accepts(b"\n\n  \np min 1 0\n \n\n"),
            accepts(b"p min 2 1\n  n   1  1  \n a  1 2  0 1 5 \n"),
            refuses(b"\n  \np min 1 0\n   \nx\n", (24, 5, 1, 0)),
            refuses(b"  \n\n    x\n", (24, 3, 1, 0)),
            refuses(b"\n   p   min   1   x   \n", (25, 2, 4, 0)),
            refuses(
                b"\np min 2 1\n\n\n   a   1   3   0   9   5\n",
                (28, 5, 3, 0),
            ),
            refuses(b"\n", (30, 2, 0, 0)),
            refuses(b"    \n\n", (30, 3, 0, 0)),
        ],
    );
}

#[test]
fn a_line_has_its_words(rt: HostRuntime) {
    check_all(
        &rt,
        &[
            refuses(b"p\n", (25, 1, 0, 0)),
            refuses(b"p min\n", (25, 1, 0, 0)),
            refuses(b"p min 1\n", (25, 1, 0, 0)),
            refuses(b"p min 1 0 0\n", (25, 1, 0, 0)),
            refuses(b"p min 1 0 c\n", (25, 1, 0, 0)),
            refuses(b"p min 1\t0\n", (25, 1, 0, 0)),
            refuses(b"p min 2 0\nn\n", (25, 2, 0, 0)),
            refuses(b"p min 2 0\nn 1\n", (25, 2, 0, 0)),
            refuses(b"p min 2 0\nn 1 1 1\n", (25, 2, 0, 0)),
            refuses(b"p min 2 0\nn 1 - 1\n", (25, 2, 0, 0)),
            refuses(b"p min 2 0\nn 1\t1\n", (25, 2, 0, 0)),
            refuses(b"p min 2 1\na\n", (25, 2, 0, 0)),
            refuses(b"p min 2 1\na 1\n", (25, 2, 0, 0)),
            refuses(b"p min 2 1\na 1 2\n", (25, 2, 0, 0)),
            refuses(b"p min 2 1\na 1 2 0\n", (25, 2, 0, 0)),
            refuses(b"p min 2 1\na 1 2 0 9\n", (25, 2, 0, 0)),
            refuses(b"p min 2 1\na 1 2 0 9 5 5\n", (25, 2, 0, 0)),
            refuses(b"p min 2 1\na 1 2 0 9 5 \r\n", (25, 2, 0, 0)),
            refuses(b"p x\n", (25, 1, 0, 0)),
            refuses(b"p max x y z\n", (25, 1, 0, 0)),
            refuses(b"n x\n", (25, 1, 0, 0)),
            refuses(b"a x y z u v w\n", (25, 1, 0, 0)),
        ],
    );
}

#[test]
fn every_word_is_well_formed(rt: HostRuntime) {
    check_all(
        &rt,
        &[
            refuses(b"p min x 0\n", (25, 1, 3, 0)),
            refuses(b"p min 1 x\n", (25, 1, 4, 0)),
            refuses(b"p min x x\n", (25, 1, 3, 0)),
            refuses(b"p min -1 0\n", (25, 1, 3, 0)),
            refuses(b"p min 1 -0\n", (25, 1, 4, 0)),
            refuses(b"p min +1 0\n", (25, 1, 3, 0)),
            refuses(b"p min 1 0\r\n", (25, 1, 4, 0)),
            refuses(b"p min 1 0\x00\n", (25, 1, 4, 0)),
            refuses(b"p min 2 0\nn x 1\n", (25, 2, 2, 0)),
            refuses(b"p min 2 0\nn -1 1\n", (25, 2, 2, 0)),
            refuses(b"p min 2 0\nn x x\n", (25, 2, 2, 0)),
            refuses(b"p min 2 1\na x 2 0 9 5\n", (25, 2, 2, 0)),
            refuses(b"p min 2 1\na 1 x 0 9 5\n", (25, 2, 3, 0)),
            refuses(b"p min 2 1\na 1 2 x 9 5\n", (25, 2, 4, 0)),
            refuses(b"p min 2 1\na 1 2 0 x 5\n", (25, 2, 5, 0)),
            refuses(b"p min 2 1\na 1 2 0 9 x\n", (25, 2, 6, 0)),
            refuses(b"p min 2 1\na -1 2 0 9 5\n", (25, 2, 2, 0)),
            refuses(b"p min 2 1\na 1 -2 0 9 5\n", (25, 2, 3, 0)),
            refuses(b"p min 2 1\na 1 2 -0 9 5\n", (25, 2, 4, 0)),
            refuses(b"p min 2 1\na 1 2 0 -9 5\n", (25, 2, 5, 0)),
            refuses(b"p min 2 1\na 1 2 0 9 -5\n", (25, 2, 6, 0)),
            refuses(b"p min 2 1\na 1 2 0 9 5\r\n", (25, 2, 6, 0)),
            refuses(b"p min 2 1\na 1 2 0 x x\n", (25, 2, 5, 0)),
            refuses(b"p min 2 1\na 1 2 0x0 9 5\n", (25, 2, 4, 0)),
            refuses(b"p min 2 1\na 1 2 0 9 5\xff\n", (25, 2, 6, 0)),
        ],
    );
}

#[test]
fn a_flow_may_have_one_minus_sign(rt: HostRuntime) {
    check_all(
        &rt,
        &[
            accepts(b"p min 2 0\nn 1 -1\n"),
            accepts(b"p min 2 0\nn 1 -01\n"),
            refuses(b"p min 2 0\nn 1 x\n", (25, 2, 3, 0)),
            refuses(b"p min 2 0\nn 1 +1\n", (25, 2, 3, 0)),
            refuses(b"p min 2 0\nn 1 --1\n", (25, 2, 3, 0)),
            refuses(b"p min 2 0\nn 1 -+1\n", (25, 2, 3, 0)),
            refuses(b"p min 2 0\nn 1 -\n", (25, 2, 3, 0)),
            refuses(b"p min 2 0\nn 1 1-\n", (25, 2, 3, 0)),
            refuses(b"p min 2 0\nn 1 1.0\n", (25, 2, 3, 0)),
            refuses(b"p min 2 0\nn 1 1\r\n", (25, 2, 3, 0)),
            refuses(b"p min 2 0\nn 1 -0\n", (4, 2, 0, 1)),
            refuses(b"p min 2 0\nn 1 00\n", (4, 2, 0, 1)),
        ],
    );
}

#[test]
fn a_number_has_one_to_ten_digits(rt: HostRuntime) {
    check_all(
        &rt,
        &[
            accepts(b"p min 0000000001 0000000000\n"),
            refuses(b"p min 00000000001 0\n", (25, 1, 3, 0)),
            refuses(b"p min 1 00000000000\n", (25, 1, 4, 0)),
            refuses(b"p min 9999999999 0\n", (27, 1, 3, 0)),
            accepts(b"p min 2 0\nn 0000000002 0000000001\n"),
            accepts(b"p min 2 0\nn 2 -0000000001\n"),
            refuses(b"p min 2 0\nn 00000000002 1\n", (25, 2, 2, 0)),
            refuses(b"p min 2 0\nn 2 00000000001\n", (25, 2, 3, 0)),
            refuses(b"p min 2 0\nn 2 -00000000001\n", (25, 2, 3, 0)),
            refuses(b"p min 2 0\nn 2 9999999999\n", (4, 2, 0, 2)),
            refuses(b"p min 2 0\nn 2 -9999999999\n", (4, 2, 0, 2)),
            accepts(b"p min 2 1\na 01 02 00 9999999999 05\n"),
            refuses(b"p min 2 1\na 1 2 0 10000000000 5\n", (25, 2, 5, 0)),
            refuses(b"p min 2 1\na 1 2 0 9 00000000005\n", (25, 2, 6, 0)),
            refuses(b"p min 2 1\na 1 2 0 9 9999999999\n", (19, 2, 0, 0)),
        ],
    );
}

#[test]
fn lines_stand_in_their_order(rt: HostRuntime) {
    check_all(
        &rt,
        &[
            refuses(b"n 1 1\n", (26, 1, 0, 0)),
            refuses(b"a 1 2 0 9 5\n", (26, 1, 0, 0)),
            refuses(b"n 1 1\np min 2 0\n", (26, 1, 0, 0)),
            refuses(b"c\n\na 1 2 0 9 5\np min 2 1\n", (26, 3, 0, 0)),
            refuses(b"p min 1 0\np min 1 0\n", (26, 2, 0, 0)),
            refuses(b"p min 2 0\nn 1 1\np min 2 0\n", (26, 3, 0, 0)),
            refuses(b"p min 2 1\na 1 2 0 9 5\np min 2 1\n", (26, 3, 0, 0)),
            refuses(b"p min 2 1\na 1 2 0 9 5\nn 1 1\n", (26, 3, 0, 0)),
            refuses(
                b"p min 2 2\na 1 2 0 9 5\nn 1 1\na 1 2 0 9 5\n",
                (26, 3, 0, 0),
            ),
            accepts(b"p min 2 1\nn 1 1\nn 2 -1\na 1 2 0 9 5\n"),
        ],
    );
}

#[test]
fn a_problem_is_within_the_limits(rt: HostRuntime) {
    check_all(
        &rt,
        &[
            refuses(b"p max 1 0\n", (27, 1, 2, 0)),
            refuses(b"p MIN 1 0\n", (27, 1, 2, 0)),
            refuses(b"p mi 1 0\n", (27, 1, 2, 0)),
            refuses(b"p mins 1 0\n", (27, 1, 2, 0)),
            refuses(b"p min\t 1 0\n", (27, 1, 2, 0)),
            refuses(b"p 1 1 0\n", (27, 1, 2, 0)),
            refuses(b"p min 0 0\n", (27, 1, 3, 0)),
            refuses(b"p min 65 0\n", (27, 1, 3, 0)),
            refuses(b"p min 4294967297 0\n", (27, 1, 3, 0)),
            accepts(b"p min 64 0\n"),
            refuses(b"p min 1 2001\n", (27, 1, 4, 0)),
            refuses(b"p min 1 4294967296\n", (27, 1, 4, 0)),
            refuses(b"p min 1 2000\n", (30, 2, 0, 0)),
            refuses(b"p max 0 2001\n", (27, 1, 2, 0)),
            refuses(b"p min 0 2001\n", (27, 1, 3, 0)),
        ],
    );
}

#[test]
fn sites_run_from_1_to_n(rt: HostRuntime) {
    check_all(
        &rt,
        &[
            refuses(b"p min 2 0\nn 0 1\n", (28, 2, 2, 0)),
            refuses(b"p min 2 0\nn 3 1\n", (28, 2, 2, 0)),
            refuses(b"p min 2 0\nn 4294967297 1\n", (28, 2, 2, 0)),
            refuses(b"p min 2 1\na 0 2 0 9 5\n", (28, 2, 2, 0)),
            refuses(b"p min 2 1\na 3 2 0 9 5\n", (28, 2, 2, 0)),
            refuses(b"p min 2 1\na 1 0 0 9 5\n", (28, 2, 3, 0)),
            refuses(b"p min 2 1\na 1 3 0 9 5\n", (28, 2, 3, 0)),
            refuses(b"p min 2 1\na 0 3 0 9 5\n", (28, 2, 2, 0)),
            refuses(b"p min 2 1\na 4294967297 2 0 9 5\n", (28, 2, 2, 0)),
            refuses(b"p min 2 1\na 1 4294967298 0 9 5\n", (28, 2, 3, 0)),
            accepts(b"p min 64 1\nn 64 1\na 64 64 0 1 5\n"),
        ],
    );
}

#[test]
fn an_arc_carries_all_that_flows(rt: HostRuntime) {
    check_all(
        &rt,
        &[
            refuses(b"p min 2 1\na 1 2 1 9 5\n", (29, 2, 4, 0)),
            accepts(b"p min 2 1\na 1 2 0 0 5\n"),
            refuses(b"p min 2 1\nn 1 5\na 1 2 0 4 5\n", (29, 3, 5, 0)),
            accepts(b"p min 2 1\nn 1 5\na 1 2 0 5 5\n"),
            refuses(b"p min 2 1\nn 1 5\na 1 2 1 4 5\n", (29, 3, 4, 0)),
            accepts(b"p min 2 1\nn 1 -5\na 1 2 0 0 5\n"),
            refuses(
                b"p min 3 1\nn 1 5\nn 2 -7\nn 3 4\na 1 2 0 8 5\n",
                (29, 5, 5, 0),
            ),
            accepts(b"p min 3 1\nn 1 5\nn 2 -7\nn 3 4\na 1 2 0 9 5\n"),
            refuses(
                b"p min 3 2\nn 3 5\na 1 2 0 5 5\na 1 2 0 4 5\n",
                (29, 4, 5, 0),
            ),
            refuses(
                b"p min 2 1\nn 1 1000000\nn 2 1000000\na 1 2 0 1999999 5\n",
                (29, 4, 5, 0),
            ),
            accepts(b"p min 2 1\nn 1 1000000\nn 2 1000000\na 1 2 0 2000000 5\n"),
        ],
    );
}

#[test]
fn nodes_are_such_as_can_be_seated(rt: HostRuntime) {
    check_all(
        &rt,
        &[
            refuses(b"p min 2 0\nn 1 1\nn 1 1\n", (2, 3, 0, 1)),
            refuses(b"p min 9 0\nn 7 1\nn 9 1\nn 8 2\nn 9 -1\n", (2, 5, 0, 9)),
            refuses(b"p min 9 0\nn 9 0\n", (4, 2, 0, 9)),
            refuses(b"p min 9 0\nn 1 1\nn 8 1000001\n", (4, 3, 0, 8)),
            refuses(b"p min 9 0\nn 8 -1000001\n", (4, 2, 0, 8)),
            refuses(b"p min 9 0\nn 8 4294967297\n", (4, 2, 0, 8)),
            accepts(b"p min 2 0\nn 1 1000000\nn 2 -1000000\n"),
            accepts(b"p min 2 0\nn 2 -1\nn 1 3\n"),
        ],
    );
}

#[test]
fn an_arc_is_not_too_long(rt: HostRuntime) {
    check_all(
        &rt,
        &[
            refuses(b"p min 2 1\na 1 2 0 9 4000001\n", (19, 2, 0, 0)),
            refuses(b"p min 2 1\na 1 1 0 9 4000001\n", (19, 2, 0, 0)),
            accepts(b"p min 2 1\na 1 2 0 9 4000000\n"),
            refuses(b"p min 2 1\na 1 2 0 9 4294967296\n", (19, 2, 0, 0)),
        ],
    );
}

#[test]
fn a_file_has_the_arcs_that_it_says(rt: HostRuntime) {
    check_all(
        &rt,
        &[
            refuses(b"c no problem\n", (30, 2, 0, 0)),
            refuses(b"p min 2 1\n", (30, 2, 0, 0)),
            refuses(b"p min 2 1\nn 1 1\nc\n\n", (30, 5, 0, 0)),
            refuses(b"p min 2 2\na 1 2 0 9 5\n", (30, 3, 0, 0)),
            refuses(b"p min 2 0\na 1 2 0 9 5\n", (30, 3, 0, 0)),
            refuses(b"p min 2 1\na 1 2 0 9 5\na 1 2 0 9 5\n", (30, 4, 0, 0)),
            accepts(b"p min 2 2\na 1 2 0 9 5\na 1 2 0 9 5\n"),
        ],
    );
}

#[test]
fn the_first_no_of_a_line_decides(rt: HostRuntime) {
    check_all(
        &rt,
        &[
            refuses(b"x min\n", (24, 1, 1, 0)),
            refuses(b"n x 1\n", (25, 1, 2, 0)),
            refuses(b"a 1 2 0 9 x\n", (25, 1, 6, 0)),
            refuses(b"p max 0 x\n", (25, 1, 4, 0)),
            refuses(b"p min 1 0\np min 1 x\n", (25, 2, 4, 0)),
            refuses(b"p min 2 0\nn 3 x\n", (25, 2, 3, 0)),
            refuses(b"p min 2 1\na 3 2 1 9 x\n", (25, 2, 6, 0)),
            refuses(b"n 0 0\n", (26, 1, 0, 0)),
            refuses(b"a 0 0 1 0 4000001\n", (26, 1, 0, 0)),
            refuses(b"p min 1 0\np max 0 2001\n", (26, 2, 0, 0)),
            refuses(b"p min 2 1\na 1 2 0 9 5\nn 3 0\n", (26, 3, 0, 0)),
            refuses(b"p min 2 0\nn 3 0\n", (28, 2, 2, 0)),
            refuses(b"p min 2 1\na 1 3 1 9 5\n", (28, 2, 3, 0)),
            refuses(b"p min 2 1\nn 1 5\na 3 1 0 4 4000001\n", (28, 3, 2, 0)),
            refuses(b"p min 2 1\na 1 2 1 9 4000001\n", (29, 2, 4, 0)),
            refuses(b"p min 2 1\nn 1 5\na 1 2 0 4 4000001\n", (29, 3, 5, 0)),
            refuses(b"p min 2 0\nn 1 1\nn 1 0\n", (2, 3, 0, 1)),
        ],
    );
}

#[test]
fn the_upper_line_decides(rt: HostRuntime) {
    check_all(
        &rt,
        &[
            refuses(b"p min 2 0\nn 1 0\nx\n", (4, 2, 0, 1)),
            refuses(b"p min 2 1\na 1 2 0 9 4000001\nn x\n", (19, 2, 0, 0)),
            refuses(b"p min 2 0\nn 1 1\nn 1 1\nn 3 1\n", (2, 3, 0, 1)),
            refuses(b"p max 2 0\nx\n", (27, 1, 2, 0)),
            refuses(b"p min 2 1\na 1 2 1 9 5\na 3 2 0 9 5\n", (29, 2, 4, 0)),
            refuses(b"n 1 1\np min 1\n", (26, 1, 0, 0)),
            refuses(b"p min 2 1\na 1 2 0 9 5\na 1 2 0 9 5\nx\n", (24, 4, 1, 0)),
            refuses(b"p min 2 2\na 1 2 0 9 5\nc\na 1 3 0 9 5\n", (28, 4, 3, 0)),
        ],
    );
}

// The head, and then the line over and over.
fn repeated(heap: Global, head: &[u8], line: &[u8], times: u32) -> Result<Vec<u8>, Fail> {
    let mut file = head.to_vec(heap)?;
    for _ in 0..times {
        file.extend_from_slice(line)?;
    }
    Ok(file)
}

// A problem, spaces and byte 10.
fn padded(heap: Global, spaces: u32) -> Result<Vec<u8>, Fail> {
    let mut file = repeated(heap, b"p min 1 0", b" ", spaces)?;
    file.extend_from_slice(b"\n")?;
    Ok(file)
}

#[test]
fn a_file_has_at_most_65536_bytes(rt: HostRuntime) -> Result<(), Fail> {
    let full = padded(rt.alloc(), 65_526)?;
    assert_eq!(rt; full.len(), 65_536);
    assert_eq!(rt; by_map(&full), Ok(()));
    assert_eq!(rt; by_sheet(&full), Ok(()));
    let long = padded(rt.alloc(), 65_527)?;
    assert_eq!(rt; long.len(), 65_537);
    assert_eq!(rt; by_map(&long), Err((23, 0, 0, 0)));
    assert_eq!(rt; by_sheet(&long), Err((23, 0, 0, 0)));
    Ok(())
}

#[test]
fn a_file_has_at_most_2000_arcs(rt: HostRuntime) -> Result<(), Fail> {
    let head = b"p min 1 2000\n";
    let arc = b"a 1 1 0 0 0\n";
    let short = repeated(rt.alloc(), head, arc, 1_999)?;
    assert_eq!(rt; by_map(&short), Err((30, 2_001, 0, 0)));
    let full = repeated(rt.alloc(), head, arc, 2_000)?;
    assert_eq!(rt; by_map(&full), Ok(()));
    assert_eq!(rt; by_sheet(&full), Ok(()));
    let long = repeated(rt.alloc(), head, arc, 2_001)?;
    assert_eq!(rt; by_map(&long), Err((30, 2_003, 0, 0)));
    assert_eq!(rt; by_sheet(&long), Err((30, 2_003, 0, 0)));
    Ok(())
}

// A file of 65,536 lines, none of which has a word.
#[test]
fn a_file_may_have_65536_lines(rt: HostRuntime) {
    let file = [b'\n'; 65_536];
    assert_eq!(rt; by_map(&file), Err((30, 65_537, 0, 0)));
    assert_eq!(rt; by_sheet(&file), Err((30, 65_537, 0, 0)));
}
