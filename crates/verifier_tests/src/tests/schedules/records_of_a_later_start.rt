pub const TEXT: &str = "
# A verifier goes on from a record of version 2: place 2, after a Commit of number 1 and a Rollback.
u 1
v1 finds 02 56 01 01 00x7 02 01 00x7 02 01 00x7 03 09x32 00x7 02 00x7 01 07x32 00x7 02 00x7 02 00x3 01 01 00x7 02 08x32
v1 opens
  v1 > v0 v2: ask place 4
v1 is up in view 2 knows 3
v2 > v1: ask place 2
  v1 > v2: stands place 3 number 2 token 8 epoch 2 first 2
v2 > v1: ask place 3
  v1 > v2: decided place 3 commit 2 token 8
v2 > v1: change view 2
  v1 > v2: promise view 2 knows 3 accepted view 2 commit 3 token 9
v2 > v1: decided place 4 rollback
v1 has 02 56 01 01 00x7 02 00 00x7 02 00x7 01 07x32 00x7 02 00x7 02 00x3 02 01 00x7 02 08x32 00

# Place 0 is of version 1 alone.
v1 finds 02 56 01 01 00x8 00 00x8 00x8 00x32 00x7 01 00x7 01 00x4
v1 opens
  bad record
v1 finds 01 56 01 01 00x8 00 00x4
v1 opens
  v1 > v0 v2: ask place 1

# What could not stand there: no epoch, numbers of another place, a first number 0 or above the next.
v1 finds 02 56 01 01 00x8 00 00x7 02 00x7 03 07x32 00x8 00x7 02 00x4
v1 opens
  bad record
v1 finds 02 56 01 01 00x8 00 00x7 02 00x7 01 07x32 00x7 01 00x7 01 00x4
v1 opens
  bad record
v1 finds 02 56 01 01 00x8 00 00x7 02 00x7 01 07x32 00x7 02 00x8 00x4
v1 opens
  bad record
v1 finds 02 56 01 01 00x8 00 00x7 02 00x7 01 07x32 00x7 02 00x7 03 00x4
v1 opens
  bad record

# Nor a token of number 0, nor epoch 1 from number 2 on.
v1 finds 02 56 01 01 00x8 00 00x7 02 00x8 07x32 00x7 03 00x7 01 00x4
v1 opens
  bad record
v1 finds 02 56 01 01 00x8 00 00x7 02 00x7 02 07x32 00x7 01 00x7 02 00x4
v1 opens
  bad record

# A Commit that may not come next there.
v1 finds 02 56 01 01 00x8 00 00x7 02 00x7 01 07x32 00x7 02 00x7 02 00x3 01 01 00x7 01 08x32
v1 opens
  bad record

# The place after what is known has no number, and the last one that has.
v1 finds 02 56 01 01 00x8 00 FFx7 FE FFx7 FD 07x32 00x7 02 00x7 01 00x3 01 00
v1 opens
  bad record
v1 finds 02 56 01 01 00x8 00 FFx8 FFx7 FE 07x32 00x7 02 00x7 01 00x4
v1 opens
  bad record
v1 finds 02 56 01 01 00x8 00 FFx7 FE FFx7 FD 07x32 00x7 02 00x7 01 00x4
v1 opens
  v1 > v0 v2: ask place 18446744073709551615

# Another verifier, another number of verifiers, and another kind of record.
v1 finds 02 56 02 01 00x8 00 00x7 02 00x7 01 07x32 00x7 02 00x7 02 00x4
v1 opens
  bad record
v1 finds 02 56 01 02 00x8 00 00x7 02 00x7 01 07x32 00x7 02 00x7 02 00x4
v1 opens
  bad record
v1 finds 02 45 01 01 00x8 00 00x7 02 00x7 01 07x32 00x7 02 00x7 02 00x4
v1 opens
  bad record

# No other version, and no start in version 1.
v1 finds 03 56 01 01 00x8 00 00x7 02 00x7 01 07x32 00x7 02 00x7 02 00x4
v1 opens
  bad record
v1 finds 00 56 01 01 00x8 00 00x4
v1 opens
  bad record
v1 finds 01 56 01 01 00x8 00 00x7 02 00x7 01 07x32 00x7 02 00x7 02 00x4
v1 opens
  bad record
";
