pub const TEXT: &str = "
# A verifier goes on from the record that it finds: view, log, and what it has accepted.
u 1
v1 finds 01 56 01 01 00x7 01 01 00x7 01 01 00x7 02 09x32 00x3 01 01 00x7 01 07x32
v1 opens
  v1 > v0 v2: ask place 2
v1 is up in view 1 knows 1
v2 > v1: change view 2
  v1 > v2: promise view 2 knows 1 accepted view 1 commit 2 token 9
v1 has 01 56 01 01 00x7 02 01 00x7 01 01 00x7 02 09x32 00x3 01 01 00x7 01 07x32

v1 finds 01 56 01 01 00x7 01 00 00x3 01 00
v1 opens
  v1 > v0 v2: ask place 2
v1 is up in view 1 knows 1

# The fields of version 1 behind the mark of version 2, and another kind of record.
v1 finds 02 56 01 01 00x8 00 00x4
v1 opens
  bad record
v1 finds 01 45 01 01 00x8 00 00x4
v1 opens
  bad record

# Another verifier, and another number of verifiers.
v1 finds 01 56 02 01 00x8 00 00x4
v1 opens
  bad record
v1 finds 01 56 01 02 00x8 00 00x4
v1 opens
  bad record

# What is accepted is neither there nor missing.
v1 finds 01 56 01 01 00x8 02 00x4
v1 opens
  bad record

# A decree that is none, and a first Commit of number 2.
v1 finds 01 56 01 01 00x8 00 00x3 01 02
v1 opens
  bad record
v1 finds 01 56 01 01 00x8 00 00x3 01 01 00x7 02 07x32
v1 opens
  bad record

# More decrees than there are, and fewer.
v1 finds 01 56 01 01 00x8 00 00x3 02 00
v1 opens
  bad record
v1 finds 01 56 01 01 00x8 00 00x3 01 00 00
v1 opens
  bad record
v1 finds 01 56 01 01 00x8 00 01 00x3 00
v1 opens
  bad record

# What is accepted is cut: its view, its number, its token.
v1 finds 01 56 01 01 00x8 01 00x7
v1 opens
  bad record
v1 finds 01 56 01 01 00x8 01 00x8 01 00x7
v1 opens
  bad record
v1 finds 01 56 01 01 00x8 01 00x8 01 00x8 07x31
v1 opens
  bad record

# A byte too few, a byte too many, and no byte at all.
v1 finds 01 56 01 01 00x8 00 00x3
v1 opens
  bad record
v1 finds 01 56 01 01 00x8 00 00x4 00
v1 opens
  bad record
v1 finds
v1 opens
  bad record

# A record that was refused is still there.
v1 has
";
