//! A law of `score`: a public function that does nothing, with the law as its contract.
ghost use Rattle.score_answers.specs.Score.{ScoreReadsFirst};

/// `score` judges the document first: where it is at fault, the key is not started.
pub fn score_reads_first()
    ensures { ScoreReadsFirst }
{}
