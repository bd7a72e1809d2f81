//! What the bytes of changes are to one another.

ghost use Rattle.std.specs.Prelude.{◌≡◌, ◌++◌, List, ℕ};
ghost use Rattle.wal_record.specs.Changes.{LoggedChange, IsChange};
ghost use Rattle.wal_record.specs.ChangeBytes.{bytes_of};

/// No change's bytes begin those of another one, so bytes tell which changes stand in them, one after the other.
pub fn no_change_begins_another()
    ensures { (a b : LoggedChange) (x y : List ℕ) → IsChange a → IsChange b → bytes_of a ++ x ≡ bytes_of b ++ y → (a ≡ b) × (x ≡ y) }
{}
