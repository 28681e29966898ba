pub const TEXT: &str = "
# A new verifier whose first record is not saved has none, and is opened again as a new one.
u 1
v0 fails its next save
v0 opens
  stopped
v0 opens
v0 is up in view 0 knows 0
v0 has 01 56 00 01 00x8 00 00x4
";
