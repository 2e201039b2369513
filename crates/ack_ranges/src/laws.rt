ghost use Rattle.std.specs.Prelude.{◌≡◌, List};
ghost use Rattle.share_model.specs.declared.ack.AckBatch.{AckBatch};
ghost use Rattle.share_model.specs.declared.ack.AckFault.{AckFault};
ghost use Rattle.ack_ranges.specs.Batches.{IsWellFormed};
ghost use Rattle.ack_ranges.specs.Faults.{IsFirstFault};
ghost use Rattle.ack_ranges.specs.Pieces.{ArePieces};
ghost use Rattle.ack_ranges.specs.declared.piece.Piece.{Piece};

/// Batches have one list of pieces: two such lists are equal.
pub fn batches_have_one_list_of_pieces()
    ensures { (batches : List AckBatch) (xs ys : List Piece) → ArePieces batches xs → ArePieces batches ys → xs ≡ ys }
{}

/// Batches that aren't well formed have one first fault, and others have none.
pub fn batches_have_one_first_fault()
    ensures one { (batches : List AckBatch) (x y : AckFault) → IsFirstFault batches x → IsFirstFault batches y → x ≡ y }
    ensures none { (batches : List AckBatch) (fault : AckFault) → IsFirstFault batches fault → IsWellFormed batches → ⊥ }
{}
