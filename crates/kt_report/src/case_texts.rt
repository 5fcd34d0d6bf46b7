use kt_base::Text;

/// A test case's texts in the JUnit report, escaped for XML.
pub struct CaseTexts {
    /// The path of the test program, relative to the directory of the root Kyuafile.
    pub program: Text,
    /// The name of the test case, such as `main` for a plain program.
    pub case_name: Text,
    /// The reason of the verdict.
    pub reason: Text,
    /// The standard output of the body, followed by that of the cleanup.
    pub out: Text,
    /// The standard error of the body, followed by that of the cleanup.
    pub err: Text,
}

/// A manual impl instead of `#[derive(Drop)]`, so that the prover handles each drop as one call.
impl Drop for CaseTexts {
    fn drop(self) {
        let CaseTexts {
            program: _,
            case_name: _,
            reason: _,
            out: _,
            err: _,
        } = self;
    }
}
