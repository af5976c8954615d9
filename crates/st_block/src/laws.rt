ghost use Rattle.std.specs.Prelude.{◌≡◌, ℕ, ◌<◌, ◌^◌, List, [], ◌∷◌, ◌++◌, IsTrue, Ok, length, map};
ghost use Rattle.st_block.specs.Block.{Cell, block_of};
ghost use Rattle.st_block.specs.BlockContents.{internal_keys_rise};
ghost use Rattle.st_block.specs.Written.{HoldsPairs, MayWrite, Writing, pair_added, cells_of, written_block};
ghost use Rattle.st_block.specs.declared.kind.BlockKind.{BlockKind};
ghost use Rattle.st_block.specs.declared.kind.BlockKind.TheVariants.{Index};

use st_code::numbers_read_again;

/// An entry that is added to a writer comes after those that it holds.
pub fn writer_holds_what_is_added()
    ensures { (writing : Writing) (pairs : List (List ℕ × List ℕ)) (key value : List ℕ) → HoldsPairs writing pairs
        → HoldsPairs (pair_added writing key value) (pairs ++ (key, value) ∷ []) }
{}

/// Opening a block that was written gives the entries that were added, where these are in the order of its kind.
pub fn written_block_opens()
    ensures opens { (kind : BlockKind) (interval : ℕ) (pairs : List (List ℕ × List ℕ)) → 0 < interval
        → MayWrite kind pairs → length (written_block interval pairs) < 2 ^ 32
        → block_of kind (written_block interval pairs) ≡ Ok (cells_of interval 0 0 [] pairs) }
    ensures entries { (interval : ℕ) (pairs : List (List ℕ × List ℕ))
        → map (λ (cell : Cell). (cell.key, cell.value)) (cells_of interval 0 0 [] pairs) ≡ pairs }
{
    numbers_read_again();
}

/// The keys of an index block that opens rise as internal keys.
pub fn index_keys_rise()
    ensures { (text : List ℕ) (cells : List Cell) → block_of Index text ≡ Ok cells → IsTrue (internal_keys_rise cells) }
{}
