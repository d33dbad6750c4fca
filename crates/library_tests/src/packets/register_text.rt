//! A register file.

/// The text of `examples/register.toml`.
pub(crate) const EXAMPLE: &str = r#"reference = "0001ec00000000000000104e495354ec00000000000000"

[[customer]]
address = "192.0.2.10"
number = 7
algorithm = "md5"
key = "6b6579"
budget = 10

[[customer]]
address = "192.0.2.20"
number = 8
algorithm = "sha1"
key = "6f74686572"
budget = 10
"#;
