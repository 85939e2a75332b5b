// The edges of address books.
use book::{Book, Spelling};
use lists::ListFault;
use path_book::{Path, PathBook};
use rows::RowFault;
use run_book::{RunBook, Runs};
use std::alloc::AllocError;
use std::process::Abort;

// Gives row 0 the list 1 1 1 1.
fn four_ones<B: Book>(rt: &impl Abort, book: &mut B) {
    assert!(rt; book.start(0).is_ok());
    for _ in 0..4 {
        assert!(rt; book.extend(0, 0, 1).is_ok());
    }
    assert_eq!(rt; book.depth(0), Some(4));
}

#[test]
fn one_run_of_four_and_two_of_two_name_one_list(rt: HostRuntime) {
    let mut book = RunBook::new();
    four_ones(&rt, &mut book);
    assert!(rt; book.names(0, &[1, 4]));
    assert!(rt; book.names(0, &[1, 2, 1, 2]));
    assert!(rt; !book.names(0, &[1, 3]));
    assert!(rt; !book.names(0, &[1, 1, 1, 1]));
}

#[test]
fn a_path_is_its_ports(rt: HostRuntime) {
    let mut book = PathBook::new();
    four_ones(&rt, &mut book);
    assert!(rt; book.names(0, &[1, 1, 1, 1]));
    assert!(rt; !book.names(0, &[1, 4]));
    assert!(rt; !PathBook::spells(&[8]));
}

#[test]
fn rows_end_at_127(rt: HostRuntime) {
    let mut book = PathBook::new();
    assert!(rt; book.start(127).is_ok());
    assert!(rt; book.start(128).is_err());
    assert!(rt; book.extend(127, 127, 7).is_ok());
    assert!(rt; book.extend(127, 127, 8).is_err());
    assert!(rt; book.extend(128, 127, 7).is_err());
    assert_eq!(rt; book.depth(128), None);
}

#[test]
fn a_refusal_says_why(rt: HostRuntime) {
    let mut book = RunBook::new();
    assert_eq!(rt; book.start(128), Err(RowFault::NoRow));
    assert_eq!(rt; book.extend(0, 5, 1), Err(RowFault::NoList));
    assert!(rt; book.start(0).is_ok());
    assert_eq!(rt;
        book.extend(0, 0, 8),
        Err(RowFault::InList(ListFault::NoPort))
    );
    for _ in 0..127 {
        assert!(rt; book.extend(0, 0, 1).is_ok());
    }
    assert_eq!(rt;
        book.extend(0, 0, 8),
        Err(RowFault::InList(ListFault::Full))
    );
}

#[test]
fn a_refusal_has_its_words(rt: HostRuntime) -> Result<(), AllocError> {
    let words = [
        (RowFault::NoRow, "the row is above 127"),
        (RowFault::NoList, "the source row has no list"),
        (RowFault::InList(ListFault::Full), "the list has 127 ports"),
        (RowFault::InList(ListFault::NoPort), "the port is above 7"),
    ];
    for (fault, why) in words {
        assert_eq!(rt; fault.to_string(rt.alloc())?.as_str(), why);
    }
    Ok(())
}

#[test]
fn memory_as_long_as_the_widest_spelling_will_do(rt: HostRuntime) {
    let mut path = PathBook::new();
    four_ones(&rt, &mut path);
    assert_eq!(rt; path.write(0, &mut [0; Path::WIDEST]), Some(4));
    assert_eq!(rt; path.write(0, &mut [0; Path::WIDEST - 1]), None);
    let mut run = RunBook::new();
    four_ones(&rt, &mut run);
    assert_eq!(rt; run.write(0, &mut [0; Runs::WIDEST]), Some(2));
    assert_eq!(rt; run.write(0, &mut [0; Runs::WIDEST - 1]), None);
}
