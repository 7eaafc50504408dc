// What texts come to.
use cov_base::Text;
use std::process::Abort;
use std::test::Fail;

/// Each text comes to the one beside it.
pub(crate) fn come_to<F: Fn(&str) -> Result<Text, Fail>>(
    rt: &impl Abort,
    cases: &[(&str, &str)],
    found_of: F,
) -> Result<(), Fail>
    requires { F.IsAlwaysCallable found_of }
{
    for (text, wanted) in cases {
        let found = found_of(text)?;
        assert!(rt; found.as_slice() == wanted.as_bytes(), "of {text}");
    }
    Ok(())
}
