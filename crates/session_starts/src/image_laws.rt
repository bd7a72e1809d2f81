//! The laws of images. None does anything.

ghost use Rattle.session_starts.specs.ImageLaws.{CommitIsImage, ImageIsShown, NewIsImage, ShownIsImage, StepCommits, StepLeavesTable};
ghost use Rattle.session_starts.specs.StopRule.{StepStopsWhole};

use crate::{
    a_new_store_opens_to_fresh_pages, fresh_pages_show_a_new_database, fresh_pages_show_new_tables,
};
use coverage::table_stays_covered;
use disk_trait::Disk;
use index_contents::a_store_in_order_has_its_indexes_in_order;
use session_parts::an_opened_store_is_shown;
use store_layout::Layout;
use transactions::{
    a_session_has_its_transaction, a_stopped_commit_is_whole, an_opening_ends_all,
    only_commits_change_the_table, others_see_alike, which_rows_count,
};
use tx_table::{next_numbers_are_one, statuses_are_one_list};

/// A store that shows a place has the pages of a store with the committed table, whatever its sessions have in hand.
pub fn a_shown_store_is_an_image()
    ensures { ShownIsImage }
{
    table_stays_covered();
    an_opening_ends_all();
    a_session_has_its_transaction();
    statuses_are_one_list();
}

/// The pages that a commit passes are those of a store with the table of before it, or with that of behind it.
pub fn a_stopped_commit_is_an_image()
    ensures { CommitIsImage }
{
    a_stopped_commit_is_whole();
    table_stays_covered();
    an_opening_ends_all();
    a_session_has_its_transaction();
    statuses_are_one_list();
    which_rows_count();
    others_see_alike();
}

/// No step changes the committed table but a commit that is done.
pub fn a_step_leaves_the_table()
    ensures { StepLeavesTable }
{
    only_commits_change_the_table();
}

/// A step that is answered while a commit is in hand makes that commit.
pub fn a_commit_makes_its_table()
    ensures { StepCommits }
{}

/// A store that was opened over the pages of a store with a table shows a place at which a script begins with that table.
pub fn an_image_is_shown(layout: &Layout)
    ensures { ImageIsShown layout.now }
{
    table_stays_covered();
    an_opened_store_is_shown();
    a_store_in_order_has_its_indexes_in_order();
    statuses_are_one_list();
    next_numbers_are_one();
}

/// The pages of a new store are those of a store with the empty table.
pub fn a_new_store_is_an_image(layout: &Layout)
    ensures { NewIsImage layout.now }
{
    a_new_store_opens_to_fresh_pages(layout);
    fresh_pages_show_a_new_database(layout);
    fresh_pages_show_new_tables(layout);
    table_stays_covered();
}

/// At every moment of a step each image of the disk has the table of the journal before it, or that with the commit in hand; and once it is done, where no
/// fault of the disk was kept, that of the journal then.
pub fn a_step_stops_whole<D: Disk>()
    ensures { StepStopsWhole D.told }
{
    a_shown_store_is_an_image();
    a_stopped_commit_is_an_image();
    a_step_leaves_the_table();
}
