//! The two marks between which a call is made, and that it was made.
use hickory_proto_core::NetError;

/// The first mark, and the rest of its line. A line that is not written is missed by whoever reads the text.
pub fn begin(rt: &impl Print, case: &str) {
    let _ = rt.print("# ");
    let _ = rt.println(case);
}

/// The second mark.
pub fn end(rt: &impl Print) {
    let _ = rt.print("answer: ");
}

/// That there is such a case, or the error before its call. A `?` in each arm would cost the prover more.
pub fn done(answer: Result<(), NetError>) -> Result<bool, NetError> {
    answer.map(|()| true)
}
