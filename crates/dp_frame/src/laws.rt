//! What holds of every record: each function's contract is the law.
ghost use Rattle.dp_frame.specs.{AnswersGive, ClosedIsNext, FeedGives, FinishGives, FinishGivesAll, FramesLast, LineIsTold, PieceGives, PrefixOfRecord, RefusalLasts, ToldIsFirst};

/// Each byte adds to the frames that are over just those that it is answered: the frame that it closes and the empty ones behind it.
pub fn feed_gives()
    ensures { FeedGives }
{}

/// Over any list of bytes the frames that the answers give are the record's, in order, up to the first line that can't be taken.
pub fn answers_give()
    ensures { AnswersGive }
{}

/// A piece whose last byte alone brings something adds to the frames that are over just those that its answer gives.
pub fn piece_gives()
    ensures { PieceGives }
{}

/// Each call of `finish` adds to the frames given just those that it answers.
pub fn finish_gives()
    ensures { FinishGives }
{}

/// Where `finish` gives no frame, all frames of the record were given.
pub fn finish_gives_all()
    ensures { FinishGivesAll }
{}

/// A frame that is over is that of the whole record, however it goes on.
pub fn frames_last()
    ensures { FramesLast }
{}

/// The frames that are over are the first ones of the whole record, however it goes on.
pub fn prefix_of_record()
    ensures { PrefixOfRecord }
{}

/// The first line that can't be taken stays the first, however the text goes on, and ends the record.
pub fn refusal_lasts()
    ensures { RefusalLasts }
{}

/// A frame that is closed has the number of the frames before it.
pub fn closed_is_next()
    ensures { ClosedIsNext }
{}

/// An answer tells of a line just where one can't be taken, and then of the first.
pub fn told_is_first()
    ensures { ToldIsFirst }
{}

/// A line that tells a time, a wire of the plant and a rest is judged by these, and is good where its cycle is below 2^20; and each line
/// that is neither empty nor faulty tells them.
pub fn line_is_told()
    ensures { LineIsTold }
{}
