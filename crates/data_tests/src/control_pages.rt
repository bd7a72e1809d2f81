//! Control pages that are written out by hand.

use block_model::{PAGE_SIZE, Sizes, Words};
use command_line::read_declarations;
use std::alloc::{AllocError, Global};
use store_format::{OPEN, read, write};
use store_layout::Layout;

const ONE: &str = "table t(a int8) rows_per_page 2|index i on t(a minmax) pages_per_range 1";

/// The fields of the control page of `table t(a int8) rows_per_page 2` and `index i on t(a minmax) pages_per_range 1`, with 8
/// blocks of the table, 4 of the index, 1 of statuses, 16 pages of log in each area and 256 frames: the head; the sizes; how
/// many tables and indexes; the table's name, its rows per page and how many columns; the column's name and kind; the index's
/// name, its table, its pages per range, whether it is autosummarize and how many columns; the column, its class, no parameter
/// and no hashes.
const FIELDS: &[u8] = b"\x01\x00BRINSTOR\x00\x01\
\x00\x00\x00\x08\x00\x00\x00\x04\x00\x00\x00\x01\x00\x00\x00\x10\x00\x00\x01\x00\
\x01\x01\
t\x00\x00\x00\x00\x00\x00\x00\x00\x00\x00\x00\x00\x00\x00\x00\x00\x02\x01\
a\x00\x00\x00\x00\x00\x00\x00\x00\x00\x00\x00\x00\x00\x00\x00\x01\
i\x00\x00\x00\x00\x00\x00\x00\x00\x00\x00\x00\x00\x00\x00\x00\x00\x00\x00\x00\x01\x00\x01\
\x00\x01\x00\x00\x00";

/// 46 pages: the control page, twice 16 of log, and 1, 8 and 4 blocks.
const SIZE: u64 = 376_832;

/// The fields of a page with a second table `nets(r int8range,a inet) rows_per_page 3`, and the indexes
/// `m on t(a multi 16)` and `wide on nets(r inclusion,a bloom 4096 3) pages_per_range 65536 autosummarize`.
const FIELDS_OF_TWO: &[u8] = b"\x01\x02BRINSTOR\x00\x01\
\x00\x00\x00\x08\x00\x00\x00\x04\x00\x00\x00\x01\x00\x00\x00\x10\x00\x00\x01\x00\
\x02\x02\
t\x00\x00\x00\x00\x00\x00\x00\x00\x00\x00\x00\x00\x00\x00\x00\x00\x02\x01\
a\x00\x00\x00\x00\x00\x00\x00\x00\x00\x00\x00\x00\x00\x00\x00\x01\
nets\x00\x00\x00\x00\x00\x00\x00\x00\x00\x00\x00\x00\x00\x03\x02\
r\x00\x00\x00\x00\x00\x00\x00\x00\x00\x00\x00\x00\x00\x00\x00\x02\
a\x00\x00\x00\x00\x00\x00\x00\x00\x00\x00\x00\x00\x00\x00\x00\x03\
m\x00\x00\x00\x00\x00\x00\x00\x00\x00\x00\x00\x00\x00\x00\x00\x00\x00\x00\x00\x80\x00\x01\
\x00\x02\x00\x10\x00\
wide\x00\x00\x00\x00\x00\x00\x00\x00\x00\x00\x00\x00\x01\x00\x01\x00\x00\x01\x02\
\x00\x03\x00\x00\x00\
\x01\x04\x10\x00\x03";

/// 58 pages: twice the blocks of tables and indexes.
const SIZE_OF_TWO: u64 = 475_136;

/// The declarations of the second page.
const TWO: &str =
    "table t(a int8) rows_per_page 2|table nets(r int8range,a inet) rows_per_page 3|index m on t(a multi 16)|index wide on nets(r inclusion,a bloom 4096 3) pages_per_range 65536 autosummarize";

/// The words between bars.
fn words_of(alloc: Global, line: &str) -> Option<Words> {
    let mut words = Words::new(alloc);
    for word in line.split('|') {
        words.push(word.as_bytes()).ok()?;
    }
    Some(words)
}

/// The layout of what the words between bars declare. `None` is want of memory, or a limit that is passed.
fn layout_of(alloc: Global, declared: &str) -> Option<Layout> {
    let sizes = Sizes {
        heap_blocks: 8,
        index_blocks: 4,
        status_blocks: 1,
        log_pages: 16,
        frames: 256,
    };
    let schema = read_declarations(alloc, &words_of(alloc, declared)?).ok()?;
    Layout::new(schema, sizes).ok()
}

/// A page: its fields, and zeros behind them.
fn by_hand(alloc: Global, fields: &[u8]) -> Result<Vec<u8>, AllocError> {
    let mut page = fields.to_vec(alloc)?;
    page.resize(PAGE_SIZE, 0)?;
    Ok(page)
}

/// Whether the control page of the layout, with that area byte, is these bytes.
fn is_written_as(layout: &Layout, area: u8, bytes: &[u8]) -> bool {
    let mut page = [9; PAGE_SIZE];
    write(layout, OPEN, area, &mut page);
    page.as_slice() == bytes
}

/// How many bytes the disk has of what is declared, and whether its control page, with that area byte, is of these fields.
fn written(alloc: Global, declared: &str, area: u8, fields: &[u8]) -> Option<(u64, bool)> {
    let page = by_hand(alloc, fields).ok()?;
    let layout = layout_of(alloc, declared)?;
    Some((
        layout.disk_size(),
        is_written_as(&layout, area, page.as_slice()),
    ))
}

/// Whether the page of these fields is read on a disk of that size, and its layout is written as the page.
fn is_read(alloc: Global, area: u8, fields: &[u8], size: u64) -> Option<bool> {
    let page = by_hand(alloc, fields).ok()?;
    let bytes = page.as_slice();
    let layout = read(alloc, bytes, size).ok()?;
    Some(is_written_as(&layout, area, bytes))
}

#[test]
fn control_pages_are_written_and_read_as_by_hand(rt: HostRuntime) {
    let alloc = rt.alloc();
    let written = [
        written(alloc, ONE, 0, FIELDS),
        written(alloc, TWO, 2, FIELDS_OF_TWO),
    ];
    let read = [
        is_read(alloc, 0, FIELDS, SIZE),
        is_read(alloc, 2, FIELDS_OF_TWO, SIZE_OF_TWO),
    ];
    let wanted = [Some((SIZE, true)), Some((SIZE_OF_TWO, true))];
    assert_eq!(rt; (written, read), (wanted, [Some(true); 2]));
}
