use super::book::Book;
use super::entry::enter;
use super::number_page::NumberPage;
use super::page::PAGE_NUMBERS;
use super::printed_page::PrintedPage;
use std::test::Fail;

// How many numbers the book holds, and how many are free.
fn counts<B: Book>(book: &B) -> (u32, u32) {
    (book.len(), book.free())
}

#[test]
fn number_page_fills_up(rt: HostRuntime) {
    let mut memory = [9; 3];
    let mut page = NumberPage::open(&mut memory);
    let opened = counts(&page);
    let answers = [page.put(65535), page.put(0), page.put(7), page.put(8)];
    assert_eq!(rt; (opened, counts(&page)), ((0, 3), (3, 0)));
    assert_eq!(rt; answers, [true, true, true, false]);
    assert_eq!(rt; memory, [65535, 0, 7]);
}

#[test]
fn number_page_leaves_the_rest(rt: HostRuntime) {
    let mut memory = [9; 4];
    let mut page = NumberPage::open(&mut memory);
    page.put(5);
    assert_eq!(rt; page.numbers(), [5].as_slice());
    assert_eq!(rt; memory, [5, 9, 9, 9]);
}

#[test]
fn printed_page_fills_up(rt: HostRuntime) {
    let mut memory = [b'-'; 20];
    let mut page = PrintedPage::open(&mut memory);
    let opened = counts(&page);
    let answers = [page.put(0), page.put(7), page.put(65535), page.put(8)];
    assert_eq!(rt; (opened, counts(&page)), ((0, 3), (3, 0)));
    assert_eq!(rt; answers, [true, true, true, false]);
    assert_eq!(rt; memory, *b"00000\n00007\n65535\n--");
}

#[test]
fn printed_page_leaves_the_rest(rt: HostRuntime) {
    let mut memory = [b'-'; 17];
    let mut page = PrintedPage::open(&mut memory);
    page.put(12345);
    assert_eq!(rt; page.bytes(), b"12345\n".as_slice());
    assert_eq!(rt; memory, *b"12345\n-----------");
}

#[test]
fn a_page_is_empty_until_a_put(rt: HostRuntime) {
    let mut memory = [9; 2];
    let mut page = NumberPage::open(&mut memory);
    assert!(rt; page.is_empty());
    page.put(0);
    assert!(rt; !page.is_empty());
}

#[test]
fn no_whole_number_fits(rt: HostRuntime) {
    let mut bytes = [b'-'; 5];
    let mut page = PrintedPage::open(&mut bytes);
    assert_eq!(rt; (page.put(1), counts(&page)), (false, (0, 0)));
    assert_eq!(rt; counts(&NumberPage::open(&mut [])), (0, 0));
}

// Puts more numbers than a page takes, and counts them.
fn overfill<B: Book>(book: &mut B) -> (u32, u32) {
    for _ in 0..PAGE_NUMBERS + 9 {
        book.put(40000);
    }
    counts(book)
}

#[test]
fn pages_end_at_65536_numbers(rt: HostRuntime) -> Result<(), Fail> {
    let mut numbers: Vec<u16> = vec![in rt.alloc(); 9; PAGE_NUMBERS + 1]?;
    let mut bytes: Vec<u8> = vec![in rt.alloc(); b'-'; 6 * PAGE_NUMBERS + 6]?;
    assert_eq!(rt; overfill(&mut NumberPage::open(&mut numbers)), (65536, 0));
    assert_eq!(rt; overfill(&mut PrintedPage::open(&mut bytes)), (65536, 0));
    assert_eq!(rt;
        (
            numbers.get(PAGE_NUMBERS).copied(),
            bytes.get(6 * PAGE_NUMBERS).copied(),
        ),
        (Some(9), Some(b'-'))
    );
    Ok(())
}

#[test]
fn number_entries_are_whole(rt: HostRuntime) {
    let mut memory = [9; 5];
    let mut page = NumberPage::open(&mut memory);
    let answers = [
        enter(&mut page, &[1, 2, 3]),
        enter(&mut page, &[4, 5, 6]),
        enter(&mut page, &[7, 8]),
        enter(&mut page, &[]),
    ];
    assert_eq!(rt; answers, [true, false, true, true]);
    assert_eq!(rt; memory, [1, 2, 3, 7, 8]);
}

#[test]
fn printed_entries_are_whole(rt: HostRuntime) {
    let mut memory = [b'-'; 17];
    let mut page = PrintedPage::open(&mut memory);
    let answers = [enter(&mut page, &[1, 2, 3]), enter(&mut page, &[10, 60000])];
    assert_eq!(rt; answers, [false, true]);
    assert_eq!(rt; memory, *b"00010\n60000\n-----");
}
