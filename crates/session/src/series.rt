// Series of calls.
ghost use Rattle.std.specs.Prelude.{List};
ghost use Rattle.session.specs.Series.{Call, Promise};

/// A series of calls on a session, each round with a pile of its own: a value of the definitions, which no code holds.
pub trait Series {
    ghost calls: { Self → List Call };
}

/// Does nothing: its contract is the promise over every series of calls.
pub fn every_series<S: Series>(series: &S)
    ensures { Promise (S.calls series.now) }
{
    let _ = series;
}
