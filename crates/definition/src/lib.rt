// The definition of the resolvent in specs/, the theorems about it in proofs/, no function.
