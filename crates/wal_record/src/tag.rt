//! The tags of changes: the first byte of each.

pub(crate) const FULL_PAGE: u8 = 1;

pub(crate) const PAGE_START: u8 = 2;

pub(crate) const ROW_PUT: u8 = 3;

pub(crate) const ROW_MARK: u8 = 4;

pub(crate) const ROWS_DROP: u8 = 5;

pub(crate) const TUPLE_PUT: u8 = 6;

pub(crate) const TUPLE_REPLACE: u8 = 7;

pub(crate) const TUPLE_DROP: u8 = 8;

pub(crate) const EVACUATE: u8 = 9;

pub(crate) const MAP_PAGE: u8 = 10;

pub(crate) const MAP_SET: u8 = 11;

pub(crate) const META_SET: u8 = 12;

pub(crate) const STATUS_SET: u8 = 13;
