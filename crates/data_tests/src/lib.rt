//! Tests of single calls on data, which no worked row reaches. Values and lines: fields of bytes, packed requests, operator classes and range tuples,
//! by bytes and elements that were worked out by hand; printed lines; the run of a script, how often it calls its sink and where it ends; and that no
//! call of a range tuple but `new` takes memory, nor one of its five classes below it. Pages: control pages, the bytes of pages and of their changes,
//! what each change makes of a page, and which calls of a disk are made by logs, formats and pools, in which order. `rt try` can't run the two tests
//! that take all memory: it has an allocator of its own. Nothing stands on it.
#![tactic(auto)]

#[cfg(test)]
mod all_memory;
#[cfg(test)]
mod control_pages;
#[cfg(test)]
mod disks;
#[cfg(test)]
mod fields;
#[cfg(test)]
mod five_columns;
#[cfg(test)]
mod formats;
#[cfg(test)]
mod lines;
#[cfg(test)]
mod logs;
#[cfg(test)]
mod packed;
#[cfg(test)]
mod pages;
#[cfg(test)]
mod pools;
#[cfg(test)]
mod redos;
#[cfg(test)]
mod rows;
#[cfg(test)]
mod runs;
#[cfg(test)]
mod summaries;
#[cfg(test)]
mod tuples;
