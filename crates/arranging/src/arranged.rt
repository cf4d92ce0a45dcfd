ghost use Rattle.std.specs.Prelude.{◌≡◌};
ghost use Rattle.priority_search.specs.declared.found.NotFound.TheVariants.{NoMemory};
ghost use Rattle.arranging.specs.declared.arranged.NotArranged.TheVariants.{NotFound};

use priority_search::NotFound;

/// Why no text is made of a flat design.
#[derive(Drop, Debug)]
pub enum NotArranged {
    /// No order is found, or an allocation failed.
    NotFound(NotFound),
    /// The text would be over 16,777,216 bytes.
    Long,
}

impl From<seq_tree::NoMemory> for NotArranged {
    ghost from_gives = { λ _ e. e ≡ NotFound NoMemory };

    fn from(_e: seq_tree::NoMemory) -> NotArranged {
        NotArranged::NotFound(NotFound::NoMemory)
    }
}

impl From<NotFound> for NotArranged {
    ghost from_gives = { λ why e. e ≡ NotFound why };

    fn from(why: NotFound) -> NotArranged {
        NotArranged::NotFound(why)
    }
}
