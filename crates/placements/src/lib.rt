// The mathematics of laying weights on roots: definitions in specs/, what is proved of them in proofs/, no function.
